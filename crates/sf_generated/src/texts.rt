//! The texts of a generated design, and what is stored of them.

ghost use Rattle.std.specs.Prelude.{◌≡◌, ◌++◌, ◌∷◌, [], IfOk, string_bytes};
ghost use Rattle.sf_options.specs.Seen.{gen_seen};
ghost use Rattle.sf_designs.specs.Stores.{stored_in};
ghost use Rattle.sf_generated.specs.Made.{blocks_made, kinds_of, nets_made, pl_made, texts_stored};

use sf_designs::Store;
use sf_gen::{GenTexts, design_of};
use sf_options::{GenWords, Kinds};
use std::alloc::{AllocError as NoMemory, Global};

/// The kinds of blocks that the words name.
fn kinds_of(kinds: Kinds) -> sf_gen::Kinds
    ensures { result ≡ kinds_of kinds }
{
    match kinds {
        Kinds::Hard => sf_gen::Kinds::Hard,
        Kinds::Mixed => sf_gen::Kinds::Mixed,
    }
}

/// The texts of the design that the words ask for.
pub fn made_texts(alloc: Global, words: &GenWords<'_>) -> Result<GenTexts, NoMemory>
    ensures blocks { IfOk result (λ t. t.blocks ≡ blocks_made (gen_seen words.now)) }
    ensures nets { IfOk result (λ t. t.nets ≡ nets_made (gen_seen words.now)) }
    ensures pl { IfOk result (λ t. t.pl ≡ pl_made (gen_seen words.now)) }
{
    design_of(alloc, words.seed, words.count, kinds_of(words.kinds))
}

/// The name of a file: the base, and what it ends with.
pub fn file_name(alloc: Global, words: &GenWords<'_>, ending: &str) -> Result<String, NoMemory>
    ensures { IfOk result (λ name. string_bytes name ≡ words.now.out.now ++ ending.now) }
{
    let mut name = String::from_str(alloc, words.out)?;
    name.push_str(ending)?;
    Ok(name)
}

/// One more store: these bytes under the base and an ending.
fn push_text(
    alloc: Global,
    stores: &mut Vec<Store>,
    words: &GenWords<'_>,
    ending: &str,
    bytes: Vec<u8>,
) -> Result<(), NoMemory>
    ensures { IfOk result (λ done. stored_in stores.new.items ≡ stored_in stores.old.items
        ++ (words.now.out.now ++ ending.now, bytes.items) ∷ []) }
{
    let name = file_name(alloc, words, ending)?;
    stores.push(Store { name, bytes })?;
    Ok(())
}

/// The stores of the three texts.
pub fn text_stores(
    alloc: Global,
    words: &GenWords<'_>,
    texts: GenTexts,
) -> Result<Vec<Store>, NoMemory>
    requires blocks { texts.blocks ≡ blocks_made (gen_seen words.now) }
    requires nets { texts.nets ≡ nets_made (gen_seen words.now) }
    requires pl { texts.pl ≡ pl_made (gen_seen words.now) }
    ensures { IfOk result (λ stores. stored_in stores.items ≡ texts_stored (gen_seen words.now)) }
{
    let mut stores = Vec::new(alloc);
    push_text(
        alloc,
        &mut stores,
        words,
        ".blocks",
        texts.blocks.into_vec(),
    )?;
    push_text(alloc, &mut stores, words, ".nets", texts.nets.into_vec())?;
    push_text(alloc, &mut stores, words, ".pl", texts.pl.into_vec())?;
    Ok(stores)
}
