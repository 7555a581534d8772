//! How a command ended.

ghost use Rattle.std.specs.Prelude.{◌≡◌};

use tb_script::ScriptFault;

/// How a command ended. The causes are tried in the order words, reading, script, queries that
/// aren't built, writing. Once the words are a command's and while the source hasn't failed, want of
/// memory may come in place of any of them, before the first byte is written.
#[derive(Clone, Copy, Debug, PartialEq, Eq)]
pub enum Status {
    /// The result is written.
    Ok,
    /// The words name no command.
    Words,
    /// The source failed.
    ReadFault,
    /// The script has that fault; never `NoMemory`, which is `Memory`.
    Script(ScriptFault),
    /// The sink failed while the result was written.
    WriteFault,
    /// There was no memory.
    Memory,
    /// The script has a query whose text has no fault and isn't built.
    NotBuilt,
}

impl Status {
    ghost use Rattle.tb_top.specs.Status.{code_of};

    /// The number that the program ends with.
    pub fn code(&self) -> u8
        ensures { result ≡ code_of self.now }
    {
        match *self {
            Status::Ok => 0,
            Status::Words => 2,
            Status::ReadFault => 3,
            Status::Script(_) => 4,
            Status::WriteFault => 5,
            Status::Memory => 6,
            Status::NotBuilt => 9,
        }
    }
}
