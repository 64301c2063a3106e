//! The spelling of numbers, digests, parties, moments and options.

ghost use Rattle.std.specs.Prelude.{◌<◌, ◌^◌, ◌∷◌, []};
ghost use Rattle.std.specs.Int.{w16, w32, w64};
ghost use Rattle.net_base.specs.Reading.{number};
ghost use Rattle.net_base.specs.Forms.{byte_at, number_at, option_of, option_at};
ghost use Rattle.net_base.specs.Fields.{byte_laws, u16_laws, u32_laws, u64_laws, option_laws};
ghost use Rattle.net_base.specs.Values.{IsHash, hash, hash_at, hash_laws, IsParty, party, party_at, party_laws, IsMoment, moment, moment_at, moment_laws};

use crate::fault::PartFault;
use crate::part::{
    read_below, read_hash, read_option, read_u8, read_u16, read_u32, read_u64, write_option,
};
use crate::reader::Reader;
use crate::spelt::Spelt;
use crate::values::{Hash32, Moment, Party};
use crate::writer::Writer;
use std::alloc::{AllocError, Global};

impl Spelt for u8 {
    ghost spelling = { λ n. n ∷ [] };

    ghost within = { λ n. n < 256 };

    ghost reading = { byte_at };

    ghost laws = { byte_laws };

    fn read_part(_alloc: Global, from: &mut Reader) -> Result<u8, PartFault> {
        read_u8(from)
    }

    fn write_part(&self, alloc: Global, out: &mut Writer) -> Result<(), AllocError> {
        out.put_u8(alloc, *self)
    }
}

impl Spelt for u16 {
    ghost spelling = { λ n. number w16 n };

    ghost within = { λ n. n < 2 ^ 16 };

    ghost reading = { number_at w16 };

    ghost laws = { u16_laws };

    fn read_part(_alloc: Global, from: &mut Reader) -> Result<u16, PartFault> {
        read_u16(from)
    }

    fn write_part(&self, alloc: Global, out: &mut Writer) -> Result<(), AllocError> {
        out.put_u16(alloc, *self)
    }
}

impl Spelt for u32 {
    ghost spelling = { λ n. number w32 n };

    ghost within = { λ n. n < 2 ^ 32 };

    ghost reading = { number_at w32 };

    ghost laws = { u32_laws };

    fn read_part(_alloc: Global, from: &mut Reader) -> Result<u32, PartFault> {
        read_u32(from)
    }

    fn write_part(&self, alloc: Global, out: &mut Writer) -> Result<(), AllocError> {
        out.put_u32(alloc, *self)
    }
}

impl Spelt for u64 {
    ghost spelling = { λ n. number w64 n };

    ghost within = { λ n. n < 2 ^ 64 };

    ghost reading = { number_at w64 };

    ghost laws = { u64_laws };

    fn read_part(_alloc: Global, from: &mut Reader) -> Result<u64, PartFault> {
        read_u64(from)
    }

    fn write_part(&self, alloc: Global, out: &mut Writer) -> Result<(), AllocError> {
        out.put_u64(alloc, *self)
    }
}

#[tactic(auto, unfolding(crate::specs::Values::hash_at))]
impl Spelt for Hash32 {
    ghost spelling = { hash };

    ghost within = { IsHash };

    ghost reading = { hash_at };

    ghost laws = { hash_laws };

    fn read_part(_alloc: Global, from: &mut Reader) -> Result<Hash32, PartFault> {
        read_hash(from)
    }

    fn write_part(&self, alloc: Global, out: &mut Writer) -> Result<(), AllocError> {
        out.put_hash(alloc, self)
    }
}

#[tactic(auto, unfolding(crate::specs::Values::party_at))]
impl Spelt for Party {
    ghost spelling = { party };

    ghost within = { IsParty };

    ghost reading = { party_at };

    ghost laws = { party_laws };

    fn read_part(_alloc: Global, from: &mut Reader) -> Result<Party, PartFault> {
        Ok(Party(read_below(from, 16)?))
    }

    fn write_part(&self, alloc: Global, out: &mut Writer) -> Result<(), AllocError> {
        out.put_u8(alloc, self.0)
    }
}

#[tactic(auto, unfolding(crate::specs::Values::moment_at))]
impl Spelt for Moment {
    ghost spelling = { moment };

    ghost within = { IsMoment };

    ghost reading = { moment_at };

    ghost laws = { moment_laws };

    fn read_part(_alloc: Global, from: &mut Reader) -> Result<Moment, PartFault> {
        Ok(Moment(read_u64(from)?))
    }

    fn write_part(&self, alloc: Global, out: &mut Writer) -> Result<(), AllocError> {
        out.put_u64(alloc, self.0)
    }
}

impl<T: Spelt> Spelt for Option<T> {
    ghost use Rattle.std.specs.Prelude.{IfSome};
    ghost use Rattle.net_base.specs.Forms.{option_of, option_at};
    ghost use Rattle.net_base.specs.Fields.{option_laws};

    ghost exact = { T.exact };

    ghost spelling = { λ o. option_of T.spelling o };

    ghost within = { λ o. IfSome o T.within };

    ghost reading = { option_at T.reading };

    ghost laws = { option_laws T.laws };

    fn read_part(alloc: Global, from: &mut Reader) -> Result<Option<T>, PartFault> {
        read_option(alloc, from)
    }

    fn write_part(&self, alloc: Global, out: &mut Writer) -> Result<(), AllocError> {
        write_option(alloc, self, out)
    }
}
