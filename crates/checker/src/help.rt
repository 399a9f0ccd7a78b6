//! The program's help.

/// The help on checking.
pub(crate) const HELP: &str =
    "Checks a published folder, or a stage sheet or a declaration against the ballots of its ward,
without an office.

Usage: count-office - check <FOLDER>
       count-office - check <BALLOTS> <SHEET>

Arguments:
  <FOLDER>   The path of a folder that the order publish made with --ballots
  <BALLOTS>  The path of the ballots, as the order ballots prints them, or as other programs
             write them (BLT)
  <SHEET>    The path of the text, as the orders sheet and result print it

A folder's wards are counted again from its ballots, and all files are made again and compared,
byte for byte. The status is 0 if each file is exactly that, and there is nothing else. It is 1
if not: the program prints a line for each file that is wrong, and why.

For a sheet the status is 0 if the text is exactly the one that results from these ballots,
rejected papers and lots. It is 1 if the text differs: the program prints the first line that
differs, and what it should be.

It is 2 if the words or the ballots of a sheet are not understood, or a lot is missing. It is 3
if the folder or a sheet's file can't be read, memory runs out, or an output fails.
";

/// The help on counting.
pub(crate) const COUNT_HELP: &str =
    "Counts the ballots of a ward, without an office, and prints the stage sheet.

Usage: count-office - count <BALLOTS> [--declaration | --page [--title <TEXT>] | --table |
       --results | --ballots] [--lot <STAGE>:<CANDIDATE>]..
       [--seats <N> --name <TEXT> [--candidate <NAME>]..]

Arguments:
  <BALLOTS>  The path of the ballots, as the order ballots prints them, or as other programs
             write them (BLT); a hyphen alone is standard input

Options:
  --declaration              Print the declaration instead, once the count is finished
  --page                     Print the page for a browser instead
  --title <TEXT>             The title above the page
  --table                    Print the table for a spreadsheet instead
  --results                  Print the result as JSON instead
  --ballots                  Print the ballots and the lots instead
  --lot <STAGE>:<CANDIDATE>  A lot that the ballots don't record: its stage, and the number of
                             the candidate drawn; give one for each such stage
  --seats <N>                The seats of the ward: the ballots are cast-vote records, with a
                             candidate or a rank in each column
  --name <TEXT>              The name of the ward, with --seats
  --candidate <NAME>         A candidate, if there is a rank in each column: give one for each, in
                             the order of their numbers

The status is 0 if the count is finished. It is 1 if a lot is needed: the program prints the
text for the stages so far, and on standard error the stage and the tied candidates. It is 2 if
the words or the ballots are not understood, or a lot doesn't fit the count. It is 3 if a file
can't be read, memory runs out, or an output fails.
";
