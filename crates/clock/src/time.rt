// The clock: where each CPU stands in the plan, and what each partition has had. What it says of a CPU or a partition that no
// policy has is that it waits, or that it has had nothing.
#![tactic(auto, unfolding(crate::specs::Time::cpu_at, crate::specs::Time::current_frame, crate::specs::Time::current_partition, crate::specs::Time::ticks_left, crate::specs::Time::waiting, crate::specs::Time::finished, crate::specs::Time::count_now, crate::specs::Time::count_last, crate::specs::Time::first, crate::specs::Time::firsts, crate::specs::Time::fresh_clock))]

ghost use Rattle.std.specs.Prelude.{◌≡◌};
ghost use Rattle.clock.specs.Time.{cpu_at, current_frame, current_partition, ticks_left, waiting, finished, count_now, count_last, first, firsts, fresh_clock};

use meaning::{Frame, frame_at};
use rows::item_or;

pub const CPUS: usize = 4;

pub const PARTITIONS: usize = 8;

#[derive(Clone, Copy, Drop)]
pub struct CpuClock {
    pub minor: u8,
    // 0: waiting.
    pub left: u16,
}

#[derive(Clone, Copy, Drop)]
pub struct Clock {
    pub major: u8,
    pub next: u8,
    pub cpus: [CpuClock; CPUS],
    // The counts of this major frame and of the last finished one.
    pub now: [u16; PARTITIONS],
    pub last: [u16; PARTITIONS],
}

// What a tick has come to.
#[derive(Clone, Copy, Drop)]
pub enum Tick {
    Wait,
    // Mid-frame.
    GoOn,
    // The minor frame has ended: the CPU stands at the next one, or waits.
    Moved,
    // A major frame has opened.
    Opened,
    // The count to be raised is out of range.
    Refused,
}

#[derive(Clone, Copy, Drop)]
pub struct Ticked {
    pub clock: Clock,
    pub what: Tick,
}

impl Clock {
    pub fn cpu_at(self, cpu: u8) -> CpuClock
        ensures { result ≡ cpu_at self cpu }
    {
        item_or(&self.cpus, cpu as usize, CpuClock { minor: 0, left: 0 })
    }

    // The current minor frame of a CPU.
    pub fn current_frame(self, rows: &[u64], cpu: u8) -> Frame
        ensures { result ≡ current_frame rows.now self cpu }
    {
        frame_at(rows, self.major, cpu, self.cpu_at(cpu).minor)
    }

    // The partition current on a CPU.
    pub fn current_partition(self, rows: &[u64], cpu: u8) -> u8
        ensures { result ≡ current_partition rows.now self cpu }
    {
        self.current_frame(rows, cpu).partition
    }

    // The ticks left in a CPU's minor frame.
    pub fn ticks_left(self, cpu: u8) -> u16
        ensures { result ≡ ticks_left self cpu }
    {
        self.cpu_at(cpu).left
    }

    pub fn waiting(self, cpu: u8) -> bool
        ensures { result ≡ waiting self cpu }
    {
        self.ticks_left(cpu) == 0
    }

    // Whether a CPU has finished the major frame.
    pub fn finished(self, cpu: u8) -> bool
        ensures { result ≡ finished self cpu }
    {
        self.waiting(cpu)
    }

    // The count of a partition in this major frame.
    pub fn count_now(self, partition: u8) -> u16
        ensures { result ≡ count_now self partition }
    {
        item_or(&self.now, partition as usize, 0)
    }

    // Its count in the last finished one.
    pub fn count_last(self, partition: u8) -> u16
        ensures { result ≡ count_last self partition }
    {
        item_or(&self.last, partition as usize, 0)
    }

    // The clock at the start.
    pub fn fresh(rows: &[u64]) -> Clock
        ensures { result ≡ fresh_clock rows.now }
    {
        Clock {
            major: 0,
            next: 0,
            cpus: firsts(rows, 0),
            now: [0; PARTITIONS],
            last: [0; PARTITIONS],
        }
    }
}

// A CPU at its first minor frame of a major.
fn first(rows: &[u64], major: u8, cpu: u8) -> CpuClock
    ensures { result ≡ first rows.now major cpu }
{
    CpuClock {
        minor: 0,
        left: frame_at(rows, major, cpu, 0).length,
    }
}

// Every CPU at its first minor frame.
pub(crate) fn firsts(rows: &[u64], major: u8) -> [CpuClock; CPUS]
    ensures { result ≡ firsts rows.now major }
{
    [0, 1, 2, 3].map(|cpu| first(rows, major, cpu))
}
