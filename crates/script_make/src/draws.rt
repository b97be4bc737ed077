// Numbers and names that are drawn.
ghost use Rattle.std.specs.Prelude.{◌≡◌, ◌<◌, ◌≤◌, ◌*◌, IfOk};
ghost use Rattle.mem_base.specs.script.Make.{draw, draw_page, region_name};
ghost use Rattle.rand_pcg.specs.Pcg.{pcg32};

use mem_base::Name;
use rand_core::utils::NextWord;
use rand_pcg::Lcg64Xsh32;
use std::alloc::{AllocError, Global};

/// The next word modulo n.
pub fn draw(rng: &mut Lcg64Xsh32, n: u32) -> u32
    requires { 0 < n }
    ensures value { (result, rng.new) ≡ draw pcg32 n rng.old }
    ensures bound { result < n }
{
    rng.next_word() % n
}

/// A multiple of 0x1000, one of n from 0 on.
pub fn draw_page(rng: &mut Lcg64Xsh32, n: u32) -> u64
    requires some { 0 < n }
    requires few { n ≤ 4096 }
    ensures value { (result, rng.new) ≡ draw_page pcg32 n rng.old }
    ensures bound { result < 4096 * 4096 }
{
    u64::from(draw(rng, n)) * 0x1000
}

/// A name with these letters.
pub fn name_of(alloc: Global, text: &[u8]) -> Result<Name, AllocError>
    ensures { IfOk result (λ name. name ≡ text.now) }
{
    Ok(Name::new(text.to_vec(alloc)?))
}

/// The name of region i.
pub fn region_name(alloc: Global, i: u32) -> Result<Name, AllocError>
    ensures { IfOk result (λ name. name ≡ region_name i) }
{
    let text = format!(in alloc; "r{i}")?;
    let name = name_of(alloc, text.as_bytes())?;
    Ok(name)
}
