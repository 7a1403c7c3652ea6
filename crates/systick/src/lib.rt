// SysTick: a 24-bit counter that falls by one a tick, and its registers STCTRL, STRELOAD and STCURRENT.
#![tactic(auto)]

ghost use Rattle.std.specs.Prelude.{◌≡◌, true};
ghost use Rattle.systick.specs.Skip.{skip_of};
ghost use Rattle.systick.specs.ClosedForm.{from_zero, falls_in, leaving};
ghost use Rattle.systick.specs.Timer.{fresh_timer, steady, tick_of, read_control, read_reload, read_current, write_control, write_reload, write_current, sound_timer};

#[derive(Clone, Copy, PartialEq, Eq, Debug)]
pub struct Timer {
    // STCTRL bits 2:0: counting, TICKINT, and the clock's source, which has no effect here.
    pub control: u32,
    pub reload: u32,
    pub current: u32,
    // COUNT, bit 16 of STCTRL: the timer fell to 0 since it was last read.
    pub count: bool,
}

#[derive(Clone, Copy, PartialEq, Eq, Debug)]
pub struct Ticked {
    pub timer: Timer,
    // The current value fell to 0.
    pub fell: bool,
    // SysTick, exception 15, becomes pending.
    pub pends: bool,
}

#[derive(Clone, Copy, PartialEq, Eq, Debug)]
pub struct TimerRead {
    pub value: u32,
    pub timer: Timer,
}

// The current value so many ticks after it was 0. It is 0 again every reload + 1 ticks.
#[tactic(auto, unfolding(crate::specs::ClosedForm::from_zero))]
fn from_zero(reload: u32, ticks: u32) -> u32
    ensures { result ≡ from_zero reload ticks }
{
    let period = reload as u64 + 1;
    let over = ticks as u64 % period;
    if over == 0 {
        return 0;
    }
    (period - over) as u32
}

// Whether ticks that bring the current value down to 0 and go on for so many more fall to 0.
#[tactic(auto, unfolding(crate::specs::ClosedForm::falls_in))]
fn falls_in(current: u32, reload: u32, more: u32) -> bool
    ensures { result ≡ falls_in current reload more }
{
    0 < current || reload > 0 && reload < more
}

impl Timer {
    pub fn fresh() -> Self
        ensures { result ≡ fresh_timer }
    {
        Timer {
            control: 0,
            reload: 0,
            current: 0,
            count: false,
        }
    }

    // A tick that is no fall to 0 leaves this.
    fn steady(self) -> Ticked
        ensures { result ≡ steady self }
    {
        Ticked {
            timer: self,
            fell: false,
            pends: false,
        }
    }

    // A fall to 0, and the current value after it.
    fn fallen(mut self, current: u32) -> Ticked
        ensures { result ≡ leaving true current self }
    {
        let pends = self.control / 2 % 2 == 1;
        self.current = current;
        self.count = true;
        Ticked {
            timer: self,
            fell: true,
            pends,
        }
    }

    #[tactic(auto, unfolding(crate::specs::Timer::tick_of))]
    pub fn tick(mut self) -> Ticked
        ensures { result ≡ tick_of self }
    {
        if self.control % 2 != 1 {
            return self.steady();
        }
        if self.current == 0 {
            self.current = self.reload;
            return self.steady();
        }
        if self.current == 1 {
            return self.fallen(0);
        }
        self.current = self.current - 1;
        self.steady()
    }

    // So many ticks, without stepping through them: those that bring the current value down to 0, then whole periods and a rest.
    #[tactic(auto, using(crate::specs::SkipLaws::skip_skipped), unfolding(crate::specs::ClosedForm::skipped))]
    pub fn skip(mut self, ticks: u32) -> Ticked
        ensures { result ≡ skip_of ticks self }
    {
        if self.control % 2 != 1 {
            return self.steady();
        }
        if ticks < self.current {
            self.current = self.current - ticks;
            return self.steady();
        }
        let more = ticks - self.current;
        let current = from_zero(self.reload, more);
        if falls_in(self.current, self.reload, more) {
            return self.fallen(current);
        }
        self.current = current;
        self.steady()
    }

    // STCTRL. Reading it clears COUNT.
    #[tactic(auto, unfolding(crate::specs::Timer::read_control))]
    pub fn read_control(mut self) -> TimerRead
        ensures { result ≡ read_control self }
    {
        let kept = self.control % 8;
        let count = self.count;
        self.count = false;
        if count {
            return TimerRead {
                value: kept + 0x10000,
                timer: self,
            };
        }
        TimerRead {
            value: kept,
            timer: self,
        }
    }

    // STRELOAD.
    pub fn read_reload(self) -> u32
        ensures { result ≡ read_reload self }
    {
        self.reload
    }

    // STCURRENT.
    pub fn read_current(self) -> u32
        ensures { result ≡ read_current self }
    {
        self.current
    }

    #[tactic(auto, unfolding(crate::specs::Timer::write_control))]
    pub fn write_control(mut self, value: u32) -> Self
        ensures { result ≡ write_control value self }
    {
        self.control = value % 8;
        self
    }

    #[tactic(auto, unfolding(crate::specs::Timer::write_reload))]
    pub fn write_reload(mut self, value: u32) -> Self
        ensures { result ≡ write_reload value self }
    {
        self.reload = value % 0x1000000;
        self
    }

    // Whatever is written, the current value and COUNT become 0.
    #[tactic(auto, unfolding(crate::specs::Timer::write_current))]
    pub fn write_current(mut self, value: u32) -> Self
        ensures { result ≡ write_current value self }
    {
        self.current = 0;
        self.count = false;
        self
    }

    #[tactic(auto, unfolding(crate::specs::Timer::sound_timer))]
    pub fn is_sound(self) -> bool
        ensures { result ≡ sound_timer self }
    {
        self.control < 8 && self.reload < 0x1000000 && self.current < 0x1000000
    }
}
