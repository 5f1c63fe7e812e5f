// An open journal: its log, and its operations.
use crate::operations::Operations;
use journal_log::Log;

#[derive(Drop)]
pub(crate) struct Open {
    pub(crate) log: Log,
    pub(crate) operations: Operations,
}
