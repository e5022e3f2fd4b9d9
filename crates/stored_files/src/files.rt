//! Opens database files, and defines the errors of opening a file.

mod beside;
mod faults;
mod files;
mod mending;
mod owners;
mod paths;

pub use beside::{check_beside, check_regular};
pub use faults::FileFault;
pub use files::{Databases, FileConnection, connect, make_file, open_file};
pub use mending::{LogHeader, mend_beside};
pub use owners::{is_bare, is_office};
pub use paths::{is_blank, length_of, log_of, real_path};
