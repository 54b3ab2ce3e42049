// The nine years that a sheet can be read for. (01, Years: "fixed constants of the reader")
ghost use Rattle.layout.specs.Years.{is_setting};
ghost use Rattle.std.specs.Prelude.{true, ◌≡◌};

use fields::checks::refused;
use layout::refusals::Reason;
use layout::{Refusal, years};

// The year is private, so that a setting is one of the nine constants, or was made by `new`. `nine` is known of every setting, so that what
// takes one need not look again. It is no enum, since contracts and theorems say `setting.year`.
#[derive(Clone, Copy)]
pub struct Setting {
    year: u32,
    pub ghost nine: { is_setting year ≡ true },
}

impl Setting {
    ghost use Rattle.meanings.specs.Settings.{year_in, made};

    pub const Y1999: Setting = Setting { year: years::Y1999 };

    pub const Y2004: Setting = Setting { year: years::Y2004 };

    pub const Y2006: Setting = Setting { year: years::Y2006 };

    pub const Y2008: Setting = Setting { year: years::Y2008 };

    pub const Y2012: Setting = Setting { year: years::Y2012 };

    pub const Y2014: Setting = Setting { year: years::Y2014 };

    pub const Y2015: Setting = Setting { year: years::Y2015 };

    pub const Y2016: Setting = Setting { year: years::Y2016 };

    pub const Y2017: Setting = Setting { year: years::Y2017 };

    // For a year that comes from outside; the constants need no answer to be handled. Each year is answered by its constant, so that
    // this proof holds the constants to the years of their names.
    pub fn new(year: u32) -> Result<Setting, Refusal>
        ensures { year_in result ≡ made year }
    {
        match year {
            years::Y1999 => Ok(Setting::Y1999),
            years::Y2004 => Ok(Setting::Y2004),
            years::Y2006 => Ok(Setting::Y2006),
            years::Y2008 => Ok(Setting::Y2008),
            years::Y2012 => Ok(Setting::Y2012),
            years::Y2014 => Ok(Setting::Y2014),
            years::Y2015 => Ok(Setting::Y2015),
            years::Y2016 => Ok(Setting::Y2016),
            years::Y2017 => Ok(Setting::Y2017),
            _ => refused(Reason::Ask, 0),
        }
    }

    pub fn year(self) -> u32
        ensures { result ≡ self.year }
    {
        self.year
    }
}

impl TryFrom<u32> for Setting {
    type Error = Refusal;

    ghost use Rattle.meanings.specs.Settings.{year_in, made};

    ghost try_from_gives = { λ year result. year_in result ≡ made year };

    fn try_from(year: u32) -> Result<Setting, Refusal> {
        Setting::new(year)
    }
}
