//! The files that a command got.
ghost use Rattle.std.specs.Prelude.{◌≡◌, [], ◌∷◌, ◌++◌, length, IfOk, OnOk};
ghost use Rattle.optra_frame.specs.declared.files.Role.TheVariants.{Table as table_role};
ghost use Rattle.optra_frame.specs.Files.{content_of, file_asked, files_got};
ghost use Rattle.optra_frame.specs.VersionsTold.{told_by, told_in, version_untold};

use crate::files::{Asked, Got, Role};
use crate::version::Version;
use optra_network::NoMemory;
use optra_tables::Table;
use std::alloc::Global;

/// The files that a command got, in order, and the version of the tables among them, which is told once, as their stations come.
#[derive(Drop)]
pub struct FilesGot {
    /// The version that their stations tell, where they are there.
    told: Option<Version>,
    /// The version of tables of which nothing is there, which is version 1.
    untold: Version,
    got: Vec<Got>,
    ghost told_is: { told ≡ told_in (files_got got.items) },
    ghost untold_is: { untold ≡ version_untold },
}

impl FilesGot {
    ghost use Rattle.optra_frame.specs.ContentsGot.{contents_of};
    ghost use Rattle.optra_frame.specs.VersionsTold.{version_in};

    /// No files.
    pub fn new(alloc: Global) -> Result<FilesGot, NoMemory>
        ensures { IfOk result (λ files. contents_of files ≡ []) }
    {
        let untold = Version::of(alloc, &[])?;
        Ok(FilesGot {
            told: None,
            untold,
            got: Vec::new(alloc),
        })
    }

    /// How many files they are.
    pub fn count(&self) -> usize
        ensures { result ≡ length (contents_of self.now) }
    {
        self.got.len()
    }

    /// The version of the tables among them: that of their stations, and version 1 as long as there are none.
    pub fn version(&self) -> Version
        ensures { result ≡ version_in (contents_of self.now) }
    {
        self.told.unwrap_or(self.untold)
    }

    /// The content of the first file in the role. Where there is none, it is empty.
    pub fn content(&self, role: Role) -> &[u8]
        ensures { result.now ≡ content_of (contents_of self.now) role }
    {
        content_of(&self.got, role)
    }

    /// The content of a table's file.
    pub fn table(&self, table: Table) -> &[u8]
        ensures { result.now ≡ content_of (contents_of self.now) (table_role table) }
    {
        self.content(Role::Table(table))
    }

    /// Adds a file that was got after these. By want of memory they stay as they are.
    pub fn push(&mut self, alloc: Global, asked: Asked, content: Vec<u8>) -> Result<(), NoMemory>
        ensures { OnOk result (contents_of self.new ≡ contents_of self.old
            ++ (record { file = file_asked asked; content = content.items }) ∷ []) }
    {
        let told = self.told_with(alloc, &asked, &content)?;
        self.got.push(Got { asked, content })?;
        self.told = told;
        Ok(())
    }

    /// The version that is told once a file more is there.
    fn told_with(
        &self,
        alloc: Global,
        asked: &Asked,
        content: &[u8],
    ) -> Result<Option<Version>, NoMemory>
        ensures { IfOk result (λ told. told ≡ told_in (contents_of self.now
            ++ (record { file = file_asked asked.now; content = content.now }) ∷ [])) }
    {
        match self.told {
            Some(version) => Ok(Some(version)),
            None => told_by(alloc, asked.role, content),
        }
    }

    /// The files, to be owned.
    pub fn into_got(self) -> Vec<Got>
        ensures { files_got result.items ≡ contents_of self }
    {
        self.got
    }
}

/// The version that a file in this role tells: that of the tables, where they are their stations.
fn told_by(alloc: Global, role: Role, content: &[u8]) -> Result<Option<Version>, NoMemory>
    ensures { IfOk result (λ told. told ≡ told_by role content.now) }
{
    if role == Role::Table(Table::Stations) {
        return Ok(Some(Version::of(alloc, content)?));
    }
    Ok(None)
}

/// The content of the first file in the role. Where there is none, it is empty.
fn content_of(files: &[Got], role: Role) -> &[u8]
    ensures { result.now ≡ content_of (files_got files.now) role }
{
    'files: for got in files {
        if got.asked.role == role {
            return &got.content;
        }
    }
    &[]
}
