// A line of a network: `line 0:1000 3:-250` is bus:share pairs, shares in thousandths. Every other
// bus has the share 0.

ghost use Rattle.std.specs.Prelude.{◌≡◌, ◌≤◌, pos, negsuc, if◌then◌else◌, Some, None, IsSome, IfErr, MatchResult, nat_lt, slice_index_or, slice_set};
ghost use Rattle.std.specs.Int.{int_min, int_max};
ghost use Rattle.words.specs.Plain.{IsPlain};
ghost use Rattle.words.specs.declared.mistake.Mistake.TheVariants.{BusRange, RepeatedBus};

use words::{Mistake, Words, read_number, read_price};

// The shares so far, at the buses that have been named.
#[derive(Drop)]
struct Shares {
    at: [Option<i16>; 64],
}

pub fn read_shares(words: Words) -> Result<[i16; 64], Mistake>
    ensures { IfErr result IsPlain }
{
    let mut shares = Shares { at: [None; 64] };
    for word in words {
        let (bus, share) = read_share(word)?;
        shares.name(bus, share)?;
    }
    let mut at = [0; 64];
    for (share, named) in at.iter_mut().zip(&shares.at) {
        *share = named.unwrap_or(0);
    }
    Ok(at)
}

impl Shares {
    // The share of one bus more, which has not been named before.
    fn name(&mut self, bus: u64, share: i16) -> Result<(), Mistake>
        ensures after { MatchResult result (λ _. (bus ≤ 63) × (self.new.at ≡ slice_set self.old.at bus (Some share))) (λ m. m ≡ (if nat_lt 63 bus then BusRange else RepeatedBus)) }
        ensures named { bus ≤ 63 → MatchResult result (λ _. slice_index_or self.old.at bus None ≡ None) (λ _. IsSome (slice_index_or self.old.at bus None)) }
    {
        if bus > 63 {
            return Err(Mistake::BusRange);
        }
        let place = bus as usize;
        if self.at[place].is_some() {
            return Err(Mistake::RepeatedBus);
        }
        self.at[place] = Some(share);
        Ok(())
    }
}

fn read_share(word: &str) -> Result<(u64, i16), Mistake>
    ensures { IfErr result IsPlain }
{
    let (bus, share) = word.split_once(':').ok_or(Mistake::NotAShare)?;
    Ok((read_number(bus)?, share_of(read_price(share)?)))
}

// A share past its field is kept out of range, so that the rule of shares declines it.
fn share_of(number: i32) -> i16
    ensures { result ≡ int_max (negsuc 32767) (int_min number (pos 32767)) }
{
    number.clamp(-32_768, 32_767) as i16
}
