// What a tick and a choice do to the clock.
#![tactic(auto, unfolding(crate::specs::Time::with_cpu, crate::specs::Time::charged, crate::specs::Time::count_now, crate::specs::Time::one_less, crate::specs::Time::less_left, crate::specs::Time::moved, crate::specs::Time::opened, crate::specs::Time::all_finished, crate::specs::Time::settled, crate::specs::Time::tick_of, crate::specs::Time::chosen))]

ghost use Rattle.std.specs.Prelude.{◌≡◌, ◌≤◌};
ghost use Rattle.clock.specs.Time.{most_count, count_now, with_cpu, charged, one_less, less_left, moved, opened, all_finished, settled, tick_of, chosen};

use crate::time::{Clock, CpuClock, PARTITIONS, Tick, Ticked, firsts};
use meaning::{frame_at, frame_count};
use rows::{counts_of, store};

// Counts go to so many.
pub const MOST_COUNT: u16 = 32000;

impl CpuClock {
    // One tick less is left.
    fn less(self) -> CpuClock
        ensures { result ≡ one_less self }
    {
        CpuClock {
            left: self.left.saturating_sub(1),
            ..self
        }
    }
}

impl Clock {
    fn with_cpu(mut self, cpu: u8, c: CpuClock) -> Clock
        ensures { result ≡ with_cpu self cpu c }
    {
        store(&mut self.cpus, cpu as usize, c);
        self
    }

    // One tick more for a partition.
    fn charged(mut self, partition: u8) -> Clock
        requires { count_now self partition ≤ most_count }
        ensures { result ≡ charged self partition }
    {
        let count = self.count_now(partition);
        store(&mut self.now, partition as usize, count + 1);
        self
    }

    // One tick less is left in the minor frame.
    fn less_left(self, cpu: u8) -> Clock
        ensures { result ≡ less_left self cpu }
    {
        self.with_cpu(cpu, self.cpu_at(cpu).less())
    }

    // The minor frame has ended: the next one, or after the last the CPU waits.
    fn moved(self, rows: &[u64], cpu: u8) -> Clock
        ensures { result ≡ moved rows.now self cpu }
    {
        let minor = self.cpu_at(cpu).minor;
        let count = frame_count(rows, self.major, cpu);
        let c = match minor.checked_add(1) {
            Some(next) if next < count => CpuClock {
                minor: next,
                left: frame_at(rows, self.major, cpu, next).length,
            },
            _ => CpuClock { minor, left: 0 },
        };
        self.with_cpu(cpu, c)
    }

    // The next major becomes current.
    fn opened(self, rows: &[u64]) -> Clock
        ensures { result ≡ opened rows.now self }
    {
        let last = self.now;
        Clock {
            major: self.next,
            cpus: firsts(rows, self.next),
            now: [0; PARTITIONS],
            last,
            ..self
        }
    }

    // Whether every CPU has finished the major frame.
    fn all_finished(self, rows: &[u64]) -> bool
        ensures { result ≡ all_finished rows.now self }
    {
        (0..counts_of(rows).cpus).all(|cpu| self.finished(cpu))
    }

    // Where all wait, a major frame opens.
    fn settled(self, rows: &[u64]) -> Ticked
        ensures { result ≡ settled rows.now self }
    {
        if self.all_finished(rows) {
            return Ticked {
                clock: self.opened(rows),
                what: Tick::Opened,
            };
        }
        Ticked {
            clock: self,
            what: Tick::Moved,
        }
    }

    // One tick of a CPU.
    pub fn tick(self, rows: &[u64], cpu: u8) -> Ticked
        ensures { result ≡ tick_of rows.now self cpu }
    {
        if self.waiting(cpu) {
            return Ticked {
                clock: self,
                what: Tick::Wait,
            };
        }
        let partition = self.current_partition(rows, cpu);
        if MOST_COUNT < self.count_now(partition) {
            return Ticked {
                clock: self,
                what: Tick::Refused,
            };
        }
        let charged = self.charged(partition);
        if 1 < self.ticks_left(cpu) {
            return Ticked {
                clock: charged.less_left(cpu),
                what: Tick::GoOn,
            };
        }
        charged.moved(rows, cpu).settled(rows)
    }

    // The next major, for every opening until another is chosen.
    pub fn choose(self, major: u8) -> Clock
        ensures { result ≡ chosen self major }
    {
        Clock {
            next: major,
            ..self
        }
    }
}
