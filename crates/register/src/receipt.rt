//! Receipts.

/// The record of an accepted request: the actor, the id, the subject, and the reply. It ensures that the same
/// request gets the same reply when it is repeated.
#[derive(PartialEq, Drop)]
pub struct Receipt {
    pub actor: u32,
    pub id: String,
    pub subject: String,
    pub reply: String,
}
