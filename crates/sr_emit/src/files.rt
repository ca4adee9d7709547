// The names of the files of a run.
ghost use Rattle.std.specs.Prelude.{◌≡◌, option_map};
ghost use Rattle.sr_emit.specs.FileNames.{names_of, name_of};

use sr_base::Which;

/// The names of a run's files, as far as it has them. The report names the file that it speaks of.
#[derive(Clone, Copy, Debug, PartialEq, Eq)]
pub struct FileNames<'a> {
    pub formula: Option<&'a str>,
    pub proof: Option<&'a str>,
    /// Where the trimmed proof goes.
    pub lsr: Option<&'a str>,
    /// Where the core goes.
    pub core: Option<&'a str>,
}

impl<'a> FileNames<'a> {
    /// The name of a file, where it is known. The report has none.
    pub fn of(&self, which: Which) -> Option<&'a str>
        ensures { option_map (λ s. s.now) result ≡ name_of which (names_of self.now) }
    {
        match which {
            Which::Formula => self.formula,
            Which::Proof => self.proof,
            Which::Lsr => self.lsr,
            Which::Core => self.core,
            Which::Report => None,
        }
    }
}
