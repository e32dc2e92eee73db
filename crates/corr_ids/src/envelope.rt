//! What the blocks of a message say beside its text.

use crate::bic::Bic;
use crate::mir::Mir;
use crate::uetr::Uetr;

/// Who sent a message to whom, under which reference.
///
/// `mir` is the reference of a received message, and none of one to send; `uetr` is what field 121 of block 3 holds.
#[derive(Clone, Copy, Debug, PartialEq, Eq)]
pub struct Envelope {
    pub mir: Option<Mir>,
    pub sender: Bic,
    pub receiver: Bic,
    pub uetr: Option<Uetr>,
}
