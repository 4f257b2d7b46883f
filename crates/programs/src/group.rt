// One group: whether it is awake, and which of its subjects is active.
#![tactic(auto, unfolding(crate::specs::Records::woken, crate::specs::Records::asleep, crate::specs::Records::handed_to))]

ghost use Rattle.std.specs.Prelude.{◌≡◌};
ghost use Rattle.programs.specs.Records.{woken, asleep, handed_to};

#[derive(Clone, Copy, Drop)]
pub struct Group {
    pub awake: bool,
    pub active: u8,
}

// What is said of a group that no policy has.
pub(crate) const NO_GROUP: Group = Group {
    awake: false,
    active: 0,
};

impl Group {
    pub fn wake(self) -> Group
        ensures { result ≡ woken self }
    {
        Group {
            awake: true,
            ..self
        }
    }

    pub fn sleep(self) -> Group
        ensures { result ≡ asleep self }
    {
        Group {
            awake: false,
            ..self
        }
    }

    pub fn hand_over(self, subject: u8) -> Group
        ensures { result ≡ handed_to self subject }
    {
        Group {
            active: subject,
            ..self
        }
    }
}
