//! From a number to a design and the stores of its texts.

ghost use Rattle.std.specs.Prelude.{◌≡◌, Ok, IfErr, IfOk};
ghost use Rattle.sf_options.specs.Seen.{gen_seen};
ghost use Rattle.sf_designs.specs.Loads.{TellsNoLoad};
ghost use Rattle.sf_designs.specs.Outcome.{IsFault};
ghost use Rattle.sf_designs.specs.Stores.{stored_in};
ghost use Rattle.sf_generated.specs.Made.{DesignGenerated, parts_made, texts_stored};

use crate::reading::read_back;
use crate::texts::{made_texts, text_stores};
use sf_designs::{AdmittedParts, ReadParts, Stop, Store, Weighed, make_design};
use sf_gen::{
    blocks_are_read, blocks_have_shapes, nets_are_read, parts_are_admitted, places_are_read,
};
use sf_model::Design;
use sf_options::{DesignWords, GenWords, InputFiles, WeightWords};
use std::alloc::Global;

/// A generated design, and the stores of its three texts.
#[derive(Drop)]
pub struct Generated {
    pub design: Design,
    pub stores: Vec<Store>,
}

/// The design of the generated parts.
fn made_design(alloc: Global, words: &GenWords<'_>, read: ReadParts) -> Result<Design, Stop>
    requires is { read.parts ≡ parts_made (gen_seen words.now) }
    ensures design { IfOk result (λ d. DesignGenerated (gen_seen words.now) (Ok d)) }
    ensures never { IfErr result IsFault }
    ensures tells { TellsNoLoad result }
{
    nets_are_read();
    blocks_are_read();
    places_are_read();
    parts_are_admitted();
    blocks_have_shapes();
    let told = DesignWords::by_default(InputFiles::Gsrc {
        blocks: "",
        nets: None,
        pl: None,
    });
    let both_weights = WeightWords::by_wire(1);
    let weighed = Weighed::alike(alloc, read)?;
    make_design(alloc, &told, both_weights, AdmittedParts { weighed })
}

/// The design that the number of the words gives, read from its own texts, and the stores of these.
pub fn generate_design(alloc: Global, words: &GenWords<'_>) -> Result<Generated, Stop>
    ensures design { IfOk result (λ made. DesignGenerated (gen_seen words.now) (Ok made.design)) }
    ensures stores { IfOk result (λ made. stored_in made.stores.items ≡ texts_stored (gen_seen words.now)) }
    ensures never { IfErr result IsFault }
    ensures tells { TellsNoLoad result }
{
    let texts = made_texts(alloc, words)?;
    let read = read_back(alloc, words, &texts)?;
    let design = made_design(alloc, words, read)?;
    let stores = text_stores(alloc, words, texts)?;
    Ok(Generated { design, stores })
}
