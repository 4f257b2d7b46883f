// The part of refusal 80 that speaks of plan time.
#![tactic(auto, unfolding(crate::specs::Time::cpu_in_range, crate::specs::Time::count_in_range, crate::specs::Time::clock_in_range, crate::specs::Time::ticks_left))]

ghost use Rattle.std.specs.Prelude.{◌≡◌};
ghost use Rattle.rules.specs.Rules.{all_below};
ghost use Rattle.clock.specs.Time.{cpu_in_range, count_in_range, clock_in_range};

use crate::tick::MOST_COUNT;
use crate::time::Clock;
use meaning::frame_count;
use rows::counts_of;

impl Clock {
    // Minor frame and ticks left of a CPU.
    fn cpu_in_range(self, rows: &[u64], cpu: u8) -> bool
        ensures { result ≡ cpu_in_range rows.now self cpu }
    {
        let c = self.cpu_at(cpu);
        c.minor < frame_count(rows, self.major, cpu)
            && c.left <= self.current_frame(rows, cpu).length
    }

    // The same of the first CPUs, so many of them.
    fn cpus_in_range(self, rows: &[u64], count: u8) -> bool
        ensures { result ≡ all_below count (cpu_in_range rows.now self) }
    {
        (0..count).all(|cpu| self.cpu_in_range(rows, cpu))
    }

    // The counts of a partition.
    fn count_in_range(self, partition: u8) -> bool
        ensures { result ≡ count_in_range self partition }
    {
        self.count_now(partition) <= MOST_COUNT && self.count_last(partition) <= MOST_COUNT
    }

    // The same of the first partitions, so many of them.
    fn counts_in_range(self, count: u8) -> bool
        ensures { result ≡ all_below count (count_in_range self) }
    {
        (0..count).all(|partition| self.count_in_range(partition))
    }

    pub fn in_range(self, rows: &[u64]) -> bool
        ensures { result ≡ clock_in_range rows.now self }
    {
        let counts = counts_of(rows);
        self.major < counts.majors
            && self.next < counts.majors
            && self.cpus_in_range(rows, counts.cpus)
            && self.counts_in_range(counts.partitions)
    }
}
