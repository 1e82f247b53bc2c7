// The ADC words of a send, its third to sixth replies. A send need not clear those of the send before: they count only as far as replies have come.
#![tactic(auto)]

ghost use Rattle.std.specs.Prelude.{◌≡◌, cond};
ghost use Rattle.adc_words.specs.Positions.{no_reply, none_arrived, with_reply, arrived};

// A reply: stored or not, its CRC right or not, and its data.
#[derive(Clone, Copy, Debug, PartialEq, Eq)]
pub struct AdcWord {
    pub stored: bool,
    pub right: bool,
    pub data: u16,
}

#[derive(Clone, Copy, Debug, PartialEq, Eq)]
pub struct AdcWords {
    pub third: AdcWord,
    pub fourth: AdcWord,
    pub fifth: AdcWord,
    pub sixth: AdcWord,
}

// A reply that has not come.
fn no_reply() -> AdcWord
    ensures { result ≡ no_reply }
{
    AdcWord {
        stored: false,
        right: false,
        data: 0,
    }
}

impl AdcWords {
    pub fn none() -> AdcWords
        ensures { result ≡ none_arrived }
    {
        let none = no_reply();
        AdcWords {
            third: none,
            fourth: none,
            fifth: none,
            sixth: none,
        }
    }

    // One more reply, stored or not, after `before` others.
    #[tactic(auto, unfolding(crate::specs::Positions::with_reply))]
    pub fn add(&mut self, before: u8, word: AdcWord)
        ensures { self.new ≡ with_reply self.old before word }
    {
        match before {
            2 => self.third = word,
            3 => self.fourth = word,
            4 => self.fifth = word,
            5 => self.sixth = word,
            _ => {}
        }
    }

    // Those of a send that got so many replies: what stands in the place of one that has not come is of an earlier send, if anything.
    #[tactic(auto, unfolding(crate::specs::Positions::arrived))]
    pub fn arrived(&self, replies: u8) -> AdcWords
        ensures { result ≡ arrived self.now replies }
    {
        let none = no_reply();
        AdcWords {
            third: if 2 < replies { self.third } else { none },
            fourth: if 3 < replies { self.fourth } else { none },
            fifth: if 4 < replies { self.fifth } else { none },
            sixth: if 5 < replies { self.sixth } else { none },
        }
    }
}
