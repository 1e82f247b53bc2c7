// The readings of a channel's last send: its ADC words in volts.
#![tactic(auto)]

ghost use Rattle.std.specs.Prelude.{◌≡◌};
ghost use Rattle.channel_readings.specs.Answers.{adc_reading_of, readings_of};
ghost use Rattle.channel_readings.specs.Measuring.{measured, readings_answer};

use adc_words::AdcWord;
use channel_core::Channel;

// No Option or Result: document 01 names this form, an enum with an f64 case and two bare ones.
#[derive(Clone, Copy, Debug, PartialEq)]
pub enum Reading {
    Volts(f64),
    Lost,
    // By a wrong CRC.
    Damaged,
}

// The readings of the third to sixth replies.
#[derive(Clone, Copy, Debug, PartialEq)]
pub struct Readings {
    pub third: Reading,
    pub fourth: Reading,
    pub fifth: Reading,
    pub sixth: Reading,
}

#[tactic(auto, unfolding(crate::specs::Measuring::measured))]
fn measure(word: AdcWord) -> Reading
    ensures { adc_reading_of result ≡ measured word }
{
    if word.stored {
        if word.right {
            return Reading::Volts(codes::volts(word.data));
        }
        return Reading::Damaged;
    }
    Reading::Lost
}

// Those of the last send.
#[tactic(auto, unfolding(crate::specs::Measuring::readings_answer))]
pub fn last_readings(c: &Channel) -> Readings
    ensures { readings_of result ≡ readings_answer c.now }
{
    let adc = c.adc.arrived(c.sequencer.replies());
    Readings {
        third: measure(adc.third),
        fourth: measure(adc.fourth),
        fifth: measure(adc.fifth),
        sixth: measure(adc.sixth),
    }
}
