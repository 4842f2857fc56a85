// Commands and replies as C sees them: rows of numbers. C has no enums with data, so a command and a refusal are numbers there.
ghost use Rattle.std.specs.Prelude.{◌≡◌};
ghost use Rattle.model.specs.Commands.{asked_of, answer_reply, number_reply, nothing, line_reply, report_reply};

use stores::{Answer, BusReport, Line, Turn};

// The status of a reply that has nothing to tell.
const NOTHING: u32 = 255;

// What a pointer is told as that names no processor.
const NO_PROCESSOR: u32 = 4;

// What `code` asks, and its fields. A field that a command does not have is not looked at.
#[repr(C)]
#[derive(Clone, Copy)]
pub struct Command {
    pub code: u32,
    pub p: u32,
    pub a: u32,
    pub w: u32,
}

// A status and up to five numbers; those that a reply does not have are 0.
#[repr(C)]
#[derive(Clone, Copy, Default)]
pub struct Reply {
    pub status: u32,
    pub first: u32,
    pub second: u32,
    pub third: u32,
    pub fourth: u32,
    pub fifth: u32,
}

// What a command asks for.
#[derive(Clone, Copy)]
pub enum Asked {
    Played(Turn),
    Word { a: u32 },
    Tasks,
    // Line c of processor p.
    OneLine { p: u32, c: u32 },
    Report,
}

// No command has this code. It has neither `Display` nor `Error`: the reply to C has nothing to tell, and nothing prints it.
#[derive(Clone, Copy)]
pub struct UnknownCode {
    pub code: u32,
}

impl TryFrom<Command> for Asked {
    type Error = UnknownCode;

    ghost try_from_gives = { λ command r. r ≡ asked_of command };

    fn try_from(command: Command) -> Result<Asked, UnknownCode> {
        let Command { code, p, a, w } = command;
        match code {
            0 => Ok(Asked::Played(Turn::Start { p })),
            1 => Ok(Asked::Played(Turn::Load { p, a })),
            2 => Ok(Asked::Played(Turn::Store { p, a, w })),
            3 => Ok(Asked::Played(Turn::Squash { p })),
            4 => Ok(Asked::Played(Turn::Commit { p })),
            5 => Ok(Asked::Played(Turn::Replace { p, a })),
            6 => Ok(Asked::Word { a }),
            7 => Ok(Asked::Tasks),
            8 => Ok(Asked::OneLine { p, c: a }),
            9 => Ok(Asked::Report),
            _ => Err(UnknownCode { code }),
        }
    }
}

impl Reply {
    // There is nothing to tell.
    pub fn nothing() -> Reply
        ensures { result ≡ nothing }
    {
        Reply {
            status: NOTHING,
            ..Reply::default()
        }
    }
}

// A number that was asked for.
impl From<u32> for Reply {
    ghost from_gives = { λ n r. r ≡ number_reply n };

    fn from(n: u32) -> Reply {
        Reply {
            first: n,
            ..Reply::default()
        }
    }
}

// The number that a turn gave, or its refusal's.
impl From<Answer> for Reply {
    ghost from_gives = { λ answer r. r ≡ answer_reply answer };

    fn from(answer: Answer) -> Reply {
        match answer {
            Ok(n) => Reply::from(n),
            Err(refusal) => Reply {
                status: refusal.number() as u32,
                ..Reply::default()
            },
        }
    }
}

// The bits L and S, tag, word and pointer of a line, if there is one.
impl From<Option<Line>> for Reply {
    ghost from_gives = { λ line r. r ≡ line_reply line };

    fn from(line: Option<Line>) -> Reply {
        match line {
            Some(line) => Reply {
                status: 0,
                first: line.state.has_l() as u32,
                second: line.state.has_s() as u32,
                third: line.tag,
                fourth: line.word,
                fifth: line.next.unwrap_or(NO_PROCESSOR),
            },
            None => Reply::nothing(),
        }
    }
}

// The numbers of a bus report, if there is a bus.
impl From<Option<BusReport>> for Reply {
    ghost from_gives = { λ report r. r ≡ report_reply report };

    fn from(report: Option<BusReport>) -> Reply {
        match report {
            Some(report) => Reply {
                status: 0,
                first: report.kind.number() as u32,
                second: report.address,
                third: report.supplier.number(),
                fourth: report.invalidated,
                fifth: report.written,
            },
            None => Reply::nothing(),
        }
    }
}
