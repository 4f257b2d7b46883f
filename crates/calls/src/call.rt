// The seven calls. Event, trap, vector and flag are any byte, and so are CPU, major and partition: whether there is such a one is
// the scheduler's to say.
#[derive(Clone, Copy, Drop)]
pub enum Call {
    Tick { cpu: u8, flag: u8 },
    Hypercall { cpu: u8, event: u8, flag: u8 },
    Trap { cpu: u8, trap: u8, flag: u8 },
    Interrupt { cpu: u8, vector: u8, flag: u8 },
    Choose { major: u8 },
    Report { partition: u8 },
    Masks,
}
