//! The numbers that a design is made of, as they are drawn one after another.

ghost use Rattle.std.specs.Prelude.{◌≡◌, ℕ, ◌+◌, ◌*◌, ◌≤◌, IfOk, OnOk};
ghost use Rattle.sf_gen.specs.Words.{after, word};
ghost use Rattle.sf_gen.specs.Drawn.{size_at, sizes, net_count, ends_at, ends};

use rand_core::utils::NextWord;
use rand_pcg::Lcg64Xsh32;
use std::alloc::{AllocError as NoMemory, Global};

/// The sides of a block.
#[derive(Clone, Copy)]
pub struct Size {
    pub w: u8,
    pub h: u8,
}

/// The two blocks that a net joins, by number.
#[derive(Clone, Copy)]
pub struct Ends {
    pub a: u16,
    pub b: u16,
}

/// The generator before the first word.
pub fn generator(seed: u64) -> Lcg64Xsh32
    ensures { result ≡ after seed 0 }
{
    Lcg64Xsh32::new(seed, 1)
}

/// The next word of the generator.
fn draw(rng: &mut Lcg64Xsh32) -> u32
    ensures word { (seed k : ℕ) → rng.old ≡ after seed k → result ≡ word seed k }
    ensures moved { (seed k : ℕ) → rng.old ≡ after seed k → rng.new ≡ after seed (k + 1) }
{
    rng.next_word()
}

/// The next size.
fn draw_size(rng: &mut Lcg64Xsh32) -> Size
    ensures size { (seed i : ℕ) → rng.old ≡ after seed (2 * i) → result ≡ size_at seed i }
    ensures moved { (seed i : ℕ) → rng.old ≡ after seed (2 * i) → rng.new ≡ after seed (2 * (i + 1)) }
{
    let w = 4 + draw(rng) % 29;
    let h = 4 + draw(rng) % 29;
    Size {
        w: w as u8,
        h: h as u8,
    }
}

/// The sizes of the blocks, from the first word on.
pub fn draw_sizes(alloc: Global, rng: &mut Lcg64Xsh32, count: u16) -> Result<Vec<Size>, NoMemory>
    ensures sizes { (seed : ℕ) → rng.old ≡ after seed 0 → IfOk result (λ v. v.items ≡ sizes seed count) }
    ensures moved { (seed : ℕ) → rng.old ≡ after seed 0 → OnOk result (rng.new ≡ after seed (2 * count)) }
{
    let mut sizes = Vec::new(alloc);
    for _block in 0..count {
        sizes.push(draw_size(rng))?;
    }
    Ok(sizes)
}

/// The ends of the next net.
fn draw_ends_of_net(rng: &mut Lcg64Xsh32, count: u16) -> Ends
    requires { 1 ≤ count }
    ensures ends { (seed j : ℕ) → rng.old ≡ after seed (2 * count + 2 * j) → result ≡ ends_at seed count j }
    ensures moved { (seed j : ℕ) → rng.old ≡ after seed (2 * count + 2 * j)
        → rng.new ≡ after seed (2 * count + 2 * (j + 1)) }
{
    let blocks = u32::from(count);
    let a = draw(rng) % blocks;
    let b = draw(rng) % blocks;
    Ends {
        a: a as u16,
        b: b as u16,
    }
}

/// How many nets so many blocks have.
fn nets_among(count: u16) -> u16
    requires { count ≤ 320 }
    ensures { result ≡ net_count count }
{
    if count < 2 { 0 } else { 2 * count }
}

/// The ends of the nets, from the first word behind the sizes on.
pub fn draw_ends(alloc: Global, rng: &mut Lcg64Xsh32, count: u16) -> Result<Vec<Ends>, NoMemory>
    requires some { 1 ≤ count }
    requires few { count ≤ 320 }
    ensures { (seed : ℕ) → rng.old ≡ after seed (2 * count) → IfOk result (λ v. v.items ≡ ends seed count) }
{
    let mut ends = Vec::new(alloc);
    for _net in 0..nets_among(count) {
        ends.push(draw_ends_of_net(rng, count))?;
    }
    Ok(ends)
}
