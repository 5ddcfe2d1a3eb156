ghost use Rattle.std.specs.Prelude.{◌≡◌, ℕ, ◌+◌, ◌*◌, ◌/◌, ◌<◌, ◌≤◌, ◌^◌, length, sum, EachIndex, slice_index, pos, neg_ℤ, ◌*ℤ◌, ◌≤ℤ◌};
ghost use Rattle.limits.specs.declared.TheConstants.{MOST_AMOUNT};
ghost use Rattle.crude_amounts.specs.Draw.{share_of, draw_of};
ghost use Rattle.crude_amounts.specs.Amounts.{mix_of, rest_of, weighted_of};

pub fn total(cells: &[u64]) -> u64
    requires { sum cells.now < 2 ^ 64 }
    ensures { result ≡ sum cells.now }
{
    cells.iter().sum()
}

/// What the volume holds of crudes that make up `reached` of the total, rounded down.
fn share(total: u64, volume: u64, reached: u64) -> u64
    requires some { 0 < total }
    requires within { reached ≤ total }
    ensures value { result ≡ share_of total volume reached }
    ensures most { result ≤ volume }
{
    (u128::from(reached) * u128::from(volume) / u128::from(total)) as u64
}

/// Writes the draw of the volume.
pub fn draw_each(cells: &[u64], volume: u64, drawn: &mut [u64])
    requires lengths { length drawn.old ≡ length cells.now }
    requires some { 1 ≤ volume }
    requires within { volume ≤ sum cells.now }
    requires total { sum cells.now < 2 ^ 64 }
    ensures { drawn.new ≡ draw_of cells.now volume }
{
    let total = total(cells);
    let mut reached = 0;
    let mut taken = 0;
    for (c, amount) in cells.iter().enumerate() {
        reached += *amount;
        let next = share(total, volume, reached);
        drawn[c] = next - taken;
        taken = next;
    }
}

/// Takes so much of each crude.
pub fn take_each(cells: &mut [u64], drawn: &[u64])
    requires lengths { length drawn.now ≡ length cells.old }
    requires there { EachIndex drawn.now (λ c. slice_index drawn.now c ≤ slice_index cells.old c) }
    ensures { cells.new ≡ rest_of cells.old drawn.now }
{
    for (c, amount) in drawn.iter().enumerate() {
        cells[c] -= *amount;
    }
}

/// Adds so much of each crude.
pub fn add_each(cells: &mut [u64], more: &[u64])
    requires lengths { length more.now ≡ length cells.old }
    requires total { sum cells.old + sum more.now < 2 ^ 64 }
    ensures { cells.new ≡ mix_of cells.old more.now }
{
    for (c, amount) in more.iter().enumerate() {
        cells[c] += *amount;
    }
}

/// The amount times its weight.
fn product(amount: u64, weight: i64) -> i128
    requires { amount ≤ MOST_AMOUNT }
    ensures value { result ≡ weight *ℤ pos amount }
    ensures low { neg_ℤ (pos (2 ^ 63 * amount)) ≤ℤ result }
    ensures high { result ≤ℤ pos (2 ^ 63 * amount) }
{
    i128::from(weight) * i128::from(amount)
}

/// The sum of the cells, each times its weight.
pub fn weigh(cells: &[u64], weights: &[i64]) -> i128
    requires lengths { length weights.now ≡ length cells.now }
    requires total { sum cells.now ≤ MOST_AMOUNT }
    ensures { result ≡ weighted_of cells.now weights.now }
{
    let mut sum = 0;
    for (c, amount) in cells.iter().enumerate() {
        sum += product(*amount, weights[c]);
    }
    sum
}
