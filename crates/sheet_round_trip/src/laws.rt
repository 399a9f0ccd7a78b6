//! The results of checking the texts that an office prints.

ghost use Rattle.sheet_round_trip.specs.OwnFolders.{OwnFoldersAreConfirmed, OwnFoldersAreOfficeFolders};
ghost use Rattle.sheet_round_trip.specs.OwnTexts.{DeclaredAreFinished, OwnBallotsAreRead, OwnDeclarationsAreConfirmed, OwnSheetsAreConfirmed};

use checker::ballots_read_back;
use office::texts_are_there;
use register::marks::columns_of;

/// States the law of an office's own texts. In every state, the ballots that the office prints for a ward are read as that ward's
/// election: its number, name, seats and candidates, its valid and rejected papers, and its lots. Given these ballots, `checker`'s
/// `check` confirms the stage sheet of a finished count as the sheet, and the declaration as the declaration. It has no other result
/// for them, unless an allocation fails. The count of a declared ward is finished.
pub fn own_texts_are_confirmed()
    ensures read { OwnBallotsAreRead }
    ensures sheets { OwnSheetsAreConfirmed }
    ensures declarations { OwnDeclarationsAreConfirmed }
    ensures finished { DeclaredAreFinished }
{
    // called for their laws
    texts_are_there();
    ballots_read_back();
    columns_of(&[]);
}

/// States the law of an office's own folders. In every state, the files that the office publishes with its ballots are those of an
/// election that may occur in an office. If a folder is known to have exactly these files, `checker`'s `check_folder` confirms it, with
/// their number. It has no other result for the folder, unless an allocation fails.
pub fn own_folders_are_confirmed()
    ensures office { OwnFoldersAreOfficeFolders }
    ensures confirmed { OwnFoldersAreConfirmed }
{
    // called for their laws
    texts_are_there();
    ballots_read_back();
    columns_of(&[]);
}
