//! Finds the chain of SunSpec models in a memory image (the words read from a device).
ghost use Rattle.std.specs.Prelude.{◌≡◌, ◌<◌, ◌≤◌, ◌+◌, Some, None, IfOk, IfErr};
ghost use Rattle.sun_chain.specs.Image.{word_in};
ghost use Rattle.sun_chain.specs.Chain.{base_in, is_marked, base_of, end_of, models_of, words_of};
ghost use Rattle.sun_chain.specs.Chain.{IsChain, IsNext};
ghost use Rattle.sun_chain.specs.Walk.{Fails, first_lack};

use crate::chain::Chain;
use crate::fault::ChainFault;
use crate::image::{ADDRESSES, Image};
use crate::model::Model;
use std::alloc::Global;

/// The base addresses at which SunSpec allows the `SunS` mark, in the order of the search.
const BASES: [u16; 3] = [40000, 50000, 0];

/// The maximum number of models in a chain.
const MOST_MODELS: usize = 64;

/// The ID of the end model, which has no points and ends a device's chain of SunSpec models.
const END_ID: u16 = 0xFFFF;

/// Finds the chain of models in a memory image (the words read from a device). The words `Su` and
/// `nS` mark the chain's base address: 40000, 50000 or 0.
pub fn walk(alloc: Global, image: &Image) -> Result<Chain<'_>, ChainFault>
    ensures chain { IfOk result
        (λ chain. IsChain (word_in image.now) (base_of chain) (models_of chain) (end_of chain)) }
    ensures words { IfOk result (λ chain. words_of chain ≡ word_in image.now) }
    ensures fails { IfErr result (λ fault. Fails (word_in image.now) fault) }
{
    let Some(base) = find_base(image) else {
        return Err(ChainFault::NoMark);
    };
    let mut models = Vec::new(alloc);
    let mut address = u32::from(base) + 2;
    while let Some(model) = model_at(image, models.len(), address)? {
        if models.push(model).is_err() {
            return Err(ChainFault::Memory);
        }
        address = model.next();
    }
    Ok(Chain {
        image,
        base,
        end: address as u16,
        models,
    })
}

fn find_base(image: &Image) -> Option<u16>
    ensures { result ≡ base_in (word_in image.now) }
{
    BASES
        .iter()
        .copied()
        .find(|base| is_marked_at(image, *base))
}

fn is_marked_at(image: &Image, base: u16) -> bool
    requires { base ≤ 50000 }
    ensures { result ≡ is_marked (word_in image.now) base }
{
    image.word(base) == Some(0x5375) && image.word(base + 1) == Some(0x6E53)
}

// Returns the SunSpec model that begins at an address after `count` models, or `None` at the end of
// the chain. On error, returns the first fault at the address.
fn model_at(image: &Image, count: usize, address: u32) -> Result<Option<Model>, ChainFault>
    ensures stands { IfOk result (IsNext (word_in image.now) count address) }
    ensures lack { IfErr result
        (λ fault. first_lack (word_in image.now) count address ≡ Some fault) }
{
    let address = u16::try_from(address).map_err(|_| ChainFault::PastEnd)?;
    let id = image.word(address).ok_or(ChainFault::Unreadable(address))?;
    if id == END_ID {
        return Ok(None);
    }
    if count >= MOST_MODELS {
        return Err(ChainFault::TooMany);
    }
    let following = address.checked_add(1).ok_or(ChainFault::PastEnd)?;
    let length = image
        .word(following)
        .ok_or(ChainFault::Unreadable(following))?;
    let model = Model {
        address,
        id,
        length,
    };
    if model.next() > ADDRESSES {
        return Err(ChainFault::PastEnd);
    }
    Ok(Some(model))
}
