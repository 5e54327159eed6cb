//! The content of a check file.

use pon_cert::{ClassCert, Item};

/// A problem, and a certificate to be checked for it.
#[derive(Drop)]
pub struct CheckFile {
    /// Surplus that the items share, 0 to 2,488,320 kbit/s.
    pub surplus: u64,
    /// Items, 0 to 512.
    pub items: Vec<Item>,
    /// Certificate, not checked yet.
    pub cert: ClassCert,
}

/// The result of parsing the lines of a check file.
#[derive(Drop)]
pub enum Parsed {
    /// A problem and a certificate.
    File(CheckFile),
    /// This line, from 1, is the first that does not fit.
    Syntax(u64),
}
