// The answers to calls.
#![tactic(auto, unfolding(crate::specs::Answers::number_of, crate::specs::Answers::code_of))]

ghost use Rattle.std.specs.Prelude.{◌≡◌};
ghost use Rattle.calls.specs.Answers.{code_of, number_of};

use bits::Bits64;
use meaning::SubjectVector;

// What an answer tells of the call, beside whom it enters: bits 1 and 4, and the kick.
#[derive(Clone, Copy, Drop)]
pub struct Notes {
    pub advance: bool,
    // This tick opened a major frame.
    pub new_frame: bool,
    // The CPU that is kicked: the target's, when a handled event says so.
    pub kick: Option<u8>,
}

// Why nobody is entered on any CPU any more, each with document 01's number.
#[derive(Clone, Copy, Drop)]
pub enum Reason {
    Reboot = 1,
    PowerOff = 2,
    Panic = 3,
    // A trap above 59.
    HighTrap = 4,
}

// Why a call is refused, each with document 01's code.
#[derive(Clone, Copy, Drop)]
pub enum Refusal {
    // The policy handed in is one that no accepted text gives, or the state has something out of range.
    OutOfRange = 0x80,
    // A line ill formed, of an unknown kind or of the wrong length.
    IllFormed = 0x81,
    // No such CPU, major or partition.
    NoSuch = 0x82,
    // A flag that is not 00 or 01.
    BadFlag = 0x83,
    Stopped = 0x84,
    // A hypercall or trap with nobody entered.
    NobodyEntered = 0x85,
}

#[derive(Clone, Copy, Drop)]
pub enum Answer {
    Enter {
        subject: u8,
        left: u16,
        injected: Option<SubjectVector>,
        reset: bool,
        notes: Notes,
    },
    Idle {
        left: u16,
        notes: Notes,
    },
    Wait,
    // The subject entered; 255: nobody.
    GoOn {
        subject: u8,
        left: u16,
    },
    Stopped {
        subject: u8,
        reason: Reason,
    },
    Chosen,
    // A partition's count of this frame and of the last finished one.
    Report {
        partition: u8,
        now: u16,
        last: u16,
    },
    // The masked IRQ lines.
    Masks {
        lines: Bits64,
    },
    Refused(Refusal),
}

impl Reason {
    // Document 01's number.
    pub fn number(self) -> u8
        ensures { result ≡ number_of self }
    {
        self as u8
    }
}

impl Refusal {
    // Document 01's code.
    pub fn code(self) -> u8
        ensures { result ≡ code_of self }
    {
        self as u8
    }
}
