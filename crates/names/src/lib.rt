// The named parameters of V.8 bis, Tables 5-1 to 5-3 and 6-1 to 6-10: for a block of parameters, which of its positions are kept when
// a field is rewritten. No table is held: a block's names are one number with a bit for each position, position 1 the lowest.
#![tactic(auto)]

ghost use Rattle.std.specs.Prelude.{◌≡◌};
ghost use Rattle.std.specs.Int.Bits.{bit_and};
ghost use Rattle.names.specs.Tables.{npar_blocks, spar_blocks};
ghost use Rattle.names.specs.Named.{printed_under, is_named, is_standard};
ghost use Rattle.names.specs.Masks.{mask_of};
ghost use Rattle.names.specs.Promises.{TellsNparPlaces, TellsSparPlaces};

use tree::{IDENTIFICATION, OF_S, OF_T, STANDARD};

// The codes that blocks stand under, beside those of the fields themselves: the network type of I, the SPar(1) of S, and the data of
// two of these.
const NETWORK_TYPE: u32 = IDENTIFICATION + OF_S;

const DATA: u32 = STANDARD + OF_S;

const VOICE_AND_DATA: u32 = STANDARD + 2 * OF_S;

const H324: u32 = STANDARD + 3 * OF_S;

const H324_DATA: u32 = H324 + OF_T;

const V18: u32 = STANDARD + 4 * OF_S;

const FACSIMILE: u32 = STANDARD + 5 * OF_S;

const TELEPHONY: u32 = STANDARD + 6 * OF_S;

const T101: u32 = STANDARD + 7 * OF_S;

const MULTILINK: u32 = STANDARD + 8 * OF_S;

const MULTILINK_DATA: u32 = MULTILINK + OF_T;

const ADDITIONAL_CONNECTION: u32 = STANDARD + 9 * OF_S;

// The thirty positions that tables print at most, and those but the bits that are non-standard.
const PRINTED: u32 = 0x3FFFFFFF;

const BUT_7: u32 = PRINTED - 0x40;

const BUT_6: u32 = PRINTED - 0x20;

const BUT_6_AND_12: u32 = BUT_6 - 0x800;

// What is kept of a field: all, the named parameters, or those of them that are no non-standard bits.
#[derive(Clone, Copy)]
pub enum Keep {
    All,
    Named,
    Standard,
}

// The named NPar positions of the block that stands under a code: Tables 5-1, 5-3, 6-1 and 6-3 to 6-10. No call in the machine code:
// with one, striking takes 3 % more instructions, and 936 octets less of code.
#[tactic(auto, using(crate::proofs::Blocks::mask_none), unfolding(crate::specs::Masks::mask_of, crate::specs::Named::printed_under, crate::proofs::Blocks::Apart))]
#[inline(always)]
fn npar_names(under: u32) -> u32
    ensures { result ≡ mask_of is_named (printed_under under npar_blocks) }
{
    match under {
        IDENTIFICATION => 0x4F,
        NETWORK_TYPE => 0x27,
        STANDARD => 0x40,
        DATA => 0x1FFDFF,
        VOICE_AND_DATA => 0x7FFB,
        H324 => 0x27,
        H324_DATA => 0x7F,
        V18 => 0x23,
        FACSIMILE => 0x9FF,
        TELEPHONY => 0x27,
        T101 => 0x27,
        MULTILINK => 0x27,
        MULTILINK_DATA => 0x7F,
        ADDITIONAL_CONNECTION => 0x3FFFFFF8,
        _ => 0,
    }
}

// Where the block that stands under a code has no non-standard position: everywhere but at bit 7 at level 1 and at bit 6 below, of T.30
// facsimile also at bit 12. NPar(3) and the call association number have none.
#[tactic(auto, unfolding(crate::specs::Masks::mask_of, crate::specs::Named::printed_under))]
fn standard_mask(under: u32) -> u32
    ensures { bit_and (mask_of is_named (printed_under under npar_blocks)) result ≡ mask_of is_standard (printed_under under npar_blocks) }
{
    match under {
        IDENTIFICATION => BUT_7,
        STANDARD => BUT_7,
        FACSIMILE => BUT_6_AND_12,
        H324_DATA => PRINTED,
        MULTILINK_DATA => PRINTED,
        ADDITIONAL_CONNECTION => PRINTED,
        _ => BUT_6,
    }
}

// The named SPar positions of the block that stands under a code; none of them is non-standard.
#[tactic(auto, using(crate::proofs::Blocks::mask_none), unfolding(crate::specs::Masks::mask_of, crate::specs::Named::printed_under, crate::proofs::Blocks::Apart))]
fn spar_names(under: u32) -> u32
    ensures { result ≡ mask_of is_named (printed_under under spar_blocks) }
{
    match under {
        IDENTIFICATION => 0x01,
        STANDARD => 0x1FF,
        H324 => 0x01,
        MULTILINK => 0x01,
        _ => 0,
    }
}

// The NPar positions that are kept of the block that stands under a code: none stands for all, else there is a bit for each.
#[inline(always)]
#[tactic(auto, unfolding(crate::specs::Masks::npar_places))]
pub fn npar_places(keep: Keep, under: u32) -> Option<u32>
    ensures { TellsNparPlaces keep under result }
{
    match keep {
        Keep::All => None,
        Keep::Named => Some(npar_names(under)),
        Keep::Standard => Some(npar_names(under) & standard_mask(under)),
    }
}

// The SPar positions that are kept of the block that stands under a code, as for NPar. They stand in tables of their own, and none of
// them is non-standard, so there is no mask.
#[inline(always)]
#[tactic(auto, using(crate::proofs::Printings::spar_standard), unfolding(crate::specs::Masks::spar_places))]
pub fn spar_places(keep: Keep, under: u32) -> Option<u32>
    ensures { TellsSparPlaces keep under result }
{
    match keep {
        Keep::All => None,
        Keep::Named | Keep::Standard => Some(spar_names(under)),
    }
}
