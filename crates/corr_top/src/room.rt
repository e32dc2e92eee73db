//! What a command reads from and writes to.

use crate::status::Status;

/// The table files, each a source (docs/tables.md).
#[derive(Drop)]
pub struct Tables<S> {
    pub bics: S,
    pub ccys: S,
    pub countries: S,
    pub accounts: S,
    pub ssi: S,
    pub charges: S,
}

/// What a command is handed: the table files, the message file, the file of received statements, that of the messages that left,
/// the sink of its report, that of the messages that leave, the disk of the journal, and a second disk, to which `migrate` alone
/// carries a journal over.
#[derive(Drop)]
pub struct Room<S, K, D> {
    pub tables: Tables<S>,
    pub messages: S,
    pub received: S,
    pub sent: S,
    pub report: K,
    pub out: K,
    pub disk: D,
    pub disk2: Option<D>,
}

/// How a command ended, and the room that it was handed.
#[derive(Drop)]
pub struct Done<S, K, D> {
    pub status: Status,
    pub room: Room<S, K, D>,
}
