// The signers of one statement.
ghost use Rattle.std.specs.Prelude.{◌≡◌};
ghost use Rattle.register.specs.Pairs.{same_statement};

use crate::pair::Statement;
use committee::ProcessSet;

#[derive(Clone, Copy)]
pub(crate) struct Row {
    pub(crate) statement: Statement,
    pub(crate) signers: ProcessSet,
}

impl Row {
    // One place says when a row is a statement's; spelled out in a closure it is no plainer.
    pub(crate) fn is_of(&self, statement: Statement) -> bool
        ensures { result ≡ same_statement self.now.statement statement }
    {
        self.statement == statement
    }
}
