//! The greatest volume that can be moved within a room.

ghost use Rattle.std.specs.Prelude.{◌≡◌, ◌↔◌, IsTrue, ℕ, ◌*◌, ◌≤◌};
ghost use Rattle.limits.specs.declared.TheConstants.{MOST_HORIZON, MOST_RATE, MOST_VOLUME};
ghost use Rattle.greedy_plan.specs.Runs.{IsRoom, IsGreatestRun, IsWhole};
ghost use Rattle.greedy_plan.specs.inside.Longest.{volume_in, Fits, IsLongest};

/// Rates are for each so many minutes.
const RATE_MINUTES: u64 = 1440;

/// How much may be moved, how fast, and in how many minutes.
#[derive(Clone, Copy, Debug, PartialEq, Eq)]
pub(crate) struct Room {
    /// In volume units for each 1440 minutes.
    pub rate: (u32, u32),
    /// In volume units.
    pub least: u32,
    /// In volume units.
    pub most: u32,
    /// The most minutes.
    pub minutes: u32,
}

/// A volume, and the minutes in which it is moved.
#[derive(Clone, Copy, Debug, PartialEq, Eq)]
pub(crate) struct Run {
    /// In volume units.
    pub volume: u32,
    pub minutes: u32,
}

/// The least minutes in which the volume is not moved too fast.
fn quickest(greatest_rate: u32, volume: u32) -> u64
    requires rate { 1 ≤ greatest_rate }
    requires most { greatest_rate ≤ MOST_RATE }
    requires volume { volume ≤ MOST_VOLUME }
    ensures enough { 1440 * volume ≤ greatest_rate * result }
    ensures least { (minutes : ℕ) → 1440 * volume ≤ greatest_rate * minutes → result ≤ minutes }
{
    (RATE_MINUTES * u64::from(volume)).div_ceil(greatest_rate.into())
}

/// The greatest volume that is not moved too fast in so many minutes.
fn volume_in(greatest_rate: u32, minutes: u32) -> u64
    requires rate { greatest_rate ≤ MOST_RATE }
    requires minutes { minutes ≤ MOST_HORIZON }
    ensures { result ≡ volume_in greatest_rate minutes }
{
    u64::from(greatest_rate) * u64::from(minutes) / RATE_MINUTES
}

/// In so many minutes the greatest volume is not moved too slowly.
fn fits(rate: (u32, u32), minutes: u32) -> bool
    requires order { rate.0 ≤ rate.1 }
    requires rate { rate.1 ≤ MOST_RATE }
    requires minutes { minutes ≤ MOST_HORIZON }
    ensures { IsTrue result ↔ Fits rate minutes }
{
    u64::from(rate.0) * u64::from(minutes) <= RATE_MINUTES * volume_in(rate.1, minutes)
}

/// The longest time up to the limit in which the greatest volume is not moved too slowly. What is over when volumes
/// are whole comes back after 1440 minutes, so that there is none where the last 1440 are none.
fn longest(rate: (u32, u32), limit: u32) -> Option<u32>
    requires order { rate.0 ≤ rate.1 }
    requires rate { rate.1 ≤ MOST_RATE }
    requires limit { limit ≤ MOST_HORIZON }
    ensures { IsLongest rate limit result }
{
    for back in 0..RATE_MINUTES as u32 {
        if back >= limit {
            return None;
        }
        if fits(rate, limit - back) {
            return Some(limit - back);
        }
    }
    None
}

impl Room {
    /// The greatest volume with the least minutes for it, where the greatest of the room can be moved.
    fn whole(&self) -> Option<Run>
        requires room { IsRoom self.now }
        requires moves { 1 ≤ self.now.rate.1 }
        requires some { self.now.least ≤ self.now.most }
        ensures { IsWhole self.now result }
    {
        let minutes = quickest(self.rate.1, self.most);
        if minutes > self.minutes.into() {
            return None;
        }
        if u64::from(self.rate.0) * minutes > RATE_MINUTES * u64::from(self.most) {
            return None;
        }
        Some(Run {
            volume: self.most,
            minutes: minutes as u32,
        })
    }

    /// The greatest volume below the greatest of the room with the least minutes for it.
    fn part(&self) -> Option<Run>
        requires room { IsRoom self.now }
        requires moves { 1 ≤ self.now.rate.1 }
        requires some { self.now.least ≤ self.now.most }
        requires not_whole { IsWhole self.now None }
        ensures { IsGreatestRun self.now result }
    {
        let below = quickest(self.rate.1, self.most) - 1;
        let minutes = longest(self.rate, below.min(self.minutes.into()) as u32)?;
        let volume = volume_in(self.rate.1, minutes) as u32;
        if volume < self.least {
            return None;
        }
        Some(Run {
            volume,
            minutes: quickest(self.rate.1, volume) as u32,
        })
    }

    /// The greatest volume that the room takes, with the least minutes for it.
    pub(crate) fn greatest(&self) -> Option<Run>
        requires { IsRoom self.now }
        ensures { IsGreatestRun self.now result }
    {
        if self.rate.1 == 0 || self.most < self.least {
            return None;
        }
        match self.whole() {
            Some(run) => Some(run),
            None => self.part(),
        }
    }
}
