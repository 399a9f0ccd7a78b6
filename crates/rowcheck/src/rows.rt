//! The rows of an office, as the values that they represent.

use register::{
    Batch, Candidate, DrawnLot, JudgedPaper, KeyedPaper, PlacedBundle, Receipt, StageFigure,
    ThirdClerk, Ward,
};

/// The rows of an office; the rows of each table are in key order. Their numbers and texts are known to be in
/// range only once `all_in_range` has confirmed it; for the rows of bundles and figures, `is_tabulated`
/// confirms it.
#[derive(Drop)]
pub struct Rows {
    pub wards: Vec<Ward>,
    pub candidates: Vec<Candidate>,
    pub batches: Vec<Batch>,
    pub thirds: Vec<ThirdClerk>,
    pub keyings: Vec<KeyedPaper>,
    pub verdicts: Vec<JudgedPaper>,
    pub lots: Vec<DrawnLot>,
    pub receipts: Vec<Receipt>,
    pub bundles: Vec<PlacedBundle>,
    pub figures: Vec<StageFigure>,
}
