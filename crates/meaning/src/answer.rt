// What a lookup yields. Host vector, subject vector and IRQ line are numbered separately and never stand for one another.
#[derive(Clone, Copy, Drop)]
pub struct HostVector(pub u8);

#[derive(Clone, Copy, Drop)]
pub struct SubjectVector(pub u8);

#[derive(Clone, Copy, Drop)]
pub struct IrqLine(pub u8);

// Where a host vector goes, and the IRQ line that it masks, if it has one.
#[derive(Clone, Copy, Drop)]
pub struct Route {
    pub subject: u8,
    pub vector: SubjectVector,
    pub line: Option<IrqLine>,
}

#[derive(Clone, Copy, Drop)]
pub enum Action {
    Nothing,
    Sleep,
    Yield,
    // To the target subject.
    Handover(u8),
    Unmask(IrqLine),
    Reboot,
    PowerOff,
    Panic,
}

// A target event of a subject, and whether its CPU is kicked.
#[derive(Clone, Copy, Drop)]
pub struct Signal {
    pub subject: u8,
    pub event: u8,
    pub kick: bool,
}

#[derive(Clone, Copy, Drop)]
pub struct SourceEvent {
    pub action: Action,
    pub signal: Option<Signal>,
}

// An unlisted source event does nothing.
pub const NO_EVENT: SourceEvent = SourceEvent {
    action: Action::Nothing,
    signal: None,
};

#[derive(Clone, Copy, Drop)]
pub enum TargetAction {
    Nothing,
    Inject(SubjectVector),
    Reset,
}

#[derive(Clone, Copy, Drop)]
pub struct Frame {
    pub partition: u8,
    pub length: u16,
}
