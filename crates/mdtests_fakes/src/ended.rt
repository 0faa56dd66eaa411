//! How a call of a program ended.

use crate::systems::CalledWith;
use crate::writers::{FailingWriter, Line};
use std::process::ExitCode;

/// How a call of a program ended: its status, what it wrote and what it showed on standard error.
#[derive(Drop)]
pub struct Ended {
    status: ExitCode,
    written: Line,
    shown: Line,
}

impl Ended {
    /// It ended with this status, over these fakes.
    pub fn of(status: ExitCode, writer: &FailingWriter, system: &CalledWith) -> Ended {
        Ended {
            status,
            written: writer.written(),
            shown: system.shown(),
        }
    }

    /// Whether it ended so.
    pub fn is(&self, status: u8, written: &[u8], shown: &[u8]) -> bool {
        self.status == ExitCode::from(status)
            && self.written.text() == written
            && self.shown.text() == shown
    }
}
