// What a record's certificate asks of the register. Two of the three cases hold nothing, so it is no Option.
use register::Statement;

#[derive(Clone, Copy, Debug, PartialEq, Eq)]
pub enum Claim {
    // The record claims no certificate, so none is asked for.
    Nothing,
    // The record claims what no register can show.
    Never,
    // So many processes have signed the statement.
    Signed { statement: Statement, signers: u8 },
}
