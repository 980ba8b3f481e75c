//! Laws of the records that a process reads.

ghost use Rattle.records.specs.Laws.{InputsTell, InputsTellOne, KeptTellTheSame};

/// Any bytes tell some list of notices: no input is refused.
pub fn inputs_tell()
    ensures tell { InputsTell }
{}

/// No bytes tell two lists of notices, so a process is a function of the bytes that it reads.
pub fn inputs_tell_one()
    ensures one { InputsTellOne }
{}

/// What is kept of a record tells what the record tells. So one that is too long tells nothing.
pub fn kept_tell_the_same()
    ensures same { KeptTellTheSame }
{}
