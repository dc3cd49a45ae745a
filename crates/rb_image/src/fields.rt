//! The sites at which the words of a leaf's field stand.
//!
//! A site says where bits stand, which are read only where they are wanted: a range of a root word,
//! or of a word of a block. A spot is a part of a leaf with the word that it is of. A field is the
//! subvalue at a path, a list of field numbers from the leaf's root. `sites` are those of the
//! leaf's root words, `addresses` those of its blocks by number, 0 where one is not known, and
//! `order` has the leaf's spots in the order in which they are examined.

ghost use Rattle.std.specs.Prelude.{◌≡◌, IfOk, length, slice_get};
ghost use Rattle.rb_layout.specs.Readable.{IsReadable};
ghost use Rattle.rb_image.specs.FieldSites.{AreNarrow, AreRootSites, AreSitesOf, HasNarrowParts, IsNarrow};
ghost use Rattle.rb_image.specs.inner.Siting as spec;
ghost use Rattle.rb_image.specs.Orders.{spot_part, spots_of};

use crate::below::holds;
use crate::order::{Spot, order_of};
use crate::parts::address_at;
use crate::site::Site;
use rb_layout::layout::{Leaf, Part};
use std::alloc::{AllocError, Global};

// The lesser of two numbers.
fn lesser(a: u64, b: u64) -> u64
    ensures { result ≡ spec.lesser a b }
{
    if a < b { a } else { b }
}

// The site of what stands nowhere: it has no bits. `place` is noted in it.
fn nowhere(place: u64) -> Site
    ensures { result ≡ spec.nowhere place }
{
    Site {
        base: 0,
        place,
        width: 0,
        o: 0,
        l: 0,
    }
}

// `l` bits from bit `o` on of those at a site, as far as it has so many.
fn range_in(site: Site, o: u64, l: u64) -> Site
    requires narrow { IsNarrow site }
    ensures { result ≡ spec.range_in site o l }
{
    let before = lesser(o, site.l);
    Site {
        base: site.base,
        place: site.place,
        width: site.width,
        o: site.o + before,
        l: lesser(l, site.l - before),
    }
}

// Where a part of a root word stands: in a range at the site of the word with this number, or
// nowhere if there is none.
fn root_site(sites: &[Site], number: u64, part: &Part) -> Site
    requires narrow { AreNarrow sites.now }
    ensures { result ≡ spec.root_site (slice_get sites.now number) part.now }
{
    match sites.get(number as usize) {
        None => nowhere(0),
        Some(site) => range_in(*site, part.o, part.l),
    }
}

// Where a part of the block at an address stands. No block begins at 0, where root words would be read.
fn block_site(address: u64, spot: &Spot) -> Site
    ensures { result ≡ spec.block_site address (spot_part spot.now) }
{
    if address == 0 {
        return nowhere(spot.byte);
    }
    Site {
        base: address,
        place: spot.byte,
        width: spot.width,
        o: spot.part.o,
        l: spot.part.l,
    }
}

// Where a part stands: in a root word, by the sites of these, or in a block, by the addresses of
// these.
fn part_site(sites: &[Site], addresses: &[u64], spot: &Spot) -> Site
    requires narrow { AreNarrow sites.now }
    ensures { result ≡ spec.part_site sites.now addresses.now spot.now.block (spot_part spot.now) }
{
    match spot.block {
        None => root_site(sites, spot.word, spot.part),
        Some(block) => block_site(address_at(addresses, block), spot),
    }
}

// Where word `number` of the field at a path stands: where the first part does that holds it, or
// nowhere if none does.
fn field_site(sites: &[Site], addresses: &[u64], order: &[Spot], path: &[u32], number: u64) -> Site
    requires narrow { AreNarrow sites.now }
    ensures { result ≡ spec.field_site sites.now addresses.now (spots_of order.now) path.now number }
{
    for spot in order {
        if holds(&spot.part.kind, path, number) {
            return part_site(sites, addresses, spot);
        }
    }
    nowhere(0)
}

// Where the first `count` words of the field at a path stand.
fn sites_of(
    alloc: Global,
    sites: &[Site],
    addresses: &[u64],
    order: &[Spot],
    path: &[u32],
    count: usize,
) -> Result<Vec<Site>, AllocError>
    requires narrow { AreNarrow sites.now }
    ensures { IfOk result (λ found. found.items
        ≡ spec.sites_from (spec.field_site sites.now addresses.now (spots_of order.now) path.now) 0 count) }
{
    let mut found = Vec::new(alloc);
    for number in 0..count {
        found.push(field_site(sites, addresses, order, path, number as u64))?;
    }
    Ok(found)
}

/// The sites of the words of a field of a leaf, `count` of them, where the sites of the leaf's own words are known, and
/// the addresses of its blocks by number, 0 for one that isn't known. The field is the subvalue at a path of field
/// numbers. A word of it that stands nowhere, as it would where its block is not known, has a site of no bits. Nothing
/// is read.
///
/// # Errors
///
/// Want of memory.
pub fn field_sites(
    alloc: Global,
    leaf: &Leaf,
    sites: &[Site],
    addresses: &[u64],
    path: &[u32],
    count: usize,
) -> Result<Vec<Site>, AllocError>
    requires readable { IsReadable leaf.now }
    requires parts { HasNarrowParts leaf.now }
    requires narrow { AreNarrow sites.now }
    ensures words { IfOk result (λ found. AreSitesOf leaf.now sites.now addresses.now path.now count found.items) }
    ensures narrow { IfOk result (λ found. AreNarrow found.items) }
{
    let order = order_of(alloc, leaf)?;
    sites_of(alloc, sites, addresses, order.as_slice(), path, count)
}

/// The sites of the root words of an image, so many of them.
///
/// # Errors
///
/// Want of memory.
pub fn root_sites(alloc: Global, count: usize) -> Result<Vec<Site>, AllocError>
    ensures words { IfOk result (λ found. AreRootSites count found.items) }
    ensures count { IfOk result (λ found. length found.items ≡ count) }
    ensures narrow { IfOk result (λ found. AreNarrow found.items) }
{
    let mut found = Vec::new(alloc);
    for number in 0..count {
        found.push(Site {
            base: 0,
            place: number as u64,
            width: 64,
            o: 0,
            l: 64,
        })?;
    }
    Ok(found)
}
