// What a worker sends back.

use crate::file_work::FileWork;
use piece_collector::Piece;

/// What became of a job.
#[derive(Drop)]
pub enum Done {
    /// The piece that was made of its text.
    Made(Piece<FileWork>),
    /// Memory was refused.
    Failed {
        /// The path of the job.
        path: String,
        /// The stamp of its text.
        stamp: u64,
    },
}
