//! The files that a command gets and puts.
use optra_tables::Table;

/// What a file that a command gets is for.
#[derive(Clone, Copy, Debug, PartialEq, Eq)]
pub enum Role {
    /// It is a table.
    Table(Table),
    /// It is the text of a certificate.
    Certificate,
    /// It is a timetable.
    Timetable,
}

/// A file that a command asks for.
#[derive(Drop)]
pub struct Asked {
    pub role: Role,
    pub name: String,
}

/// A file that was got.
#[derive(Drop)]
pub struct Got {
    pub asked: Asked,
    pub content: Vec<u8>,
}

/// A file to be put.
#[derive(Drop)]
pub struct FileText {
    pub name: String,
    pub text: Vec<u8>,
}
