//! The words of the hall. In each quarter of the floor sixteen zig-zag rings stand inside one another, the type of a ring is its
//! depth, and place n is ring n / 4 of quarter n % 4. So places are disjoint or one lies in the other.

use std::alloc::{AllocError, Global};

/// The corner `k` of ring `depth` in the quarter `of` of a floor: on every other corner the ring goes in as far as the next one.
fn corner_word(side: u32, of: u32, depth: u32, k: u32) -> u32 {
    let half = side / 4;
    let room = half.saturating_sub(2);
    let radius = half
        .saturating_sub(1)
        .wrapping_sub(depth.wrapping_mul(room) / 16);
    let reach = if k % 2 == 0 {
        radius
    } else {
        radius.wrapping_sub(room / 16)
    };
    let along = reach.wrapping_mul(k % 4) / 4;
    let out = reach.wrapping_sub(along);
    let x = half.wrapping_mul(1 + 2 * (of % 2));
    let y = half.wrapping_mul(1 + 2 * (of / 2 % 2));
    let (x, y) = match k / 4 {
        0 => (x.wrapping_add(out), y.wrapping_add(along)),
        1 => (x.wrapping_sub(along), y.wrapping_add(out)),
        2 => (x.wrapping_sub(out), y.wrapping_sub(along)),
        _ => (x.wrapping_add(along), y.wrapping_sub(out)),
    };
    0x3000_0000 | (y << 8) | x
}

/// The words of a floor and its places.
pub fn hall_words(heap: Global, places: u32, side: u32) -> Result<Vec<u32>, AllocError> {
    let mut words = Vec::new(heap);
    words.push(0x1000_0000 | (side << 9) | side)?;
    for n in 0..places {
        words.push(0x2000_0100 | (n / 4))?;
        for k in 0..16u32 {
            words.push(corner_word(side, n % 4, n / 4, k))?;
        }
    }
    Ok(words)
}

/// The extent type and the logic type of a schema: both deepen with its number, over all the depths that there are.
fn types_of(schema: u32, depths: u32) -> (u32, u32) {
    let extent = schema.wrapping_mul(depths) / 32;
    let logic = schema.wrapping_add(1).wrapping_mul(depths) / 32;
    (extent, logic.min(depths.saturating_sub(1)))
}

/// Puts 32 schemas, of which the lower ones are more patient, and as parents of each the two before it.
fn put_schemas(words: &mut Vec<u32>, depths: u32) -> Result<(), AllocError> {
    for s in 0..32u32 {
        let (extent, logic) = types_of(s, depths);
        words.push(0x8000_0000 | ((3 - s / 8) << 8) | (logic << 4) | extent)?;
    }
    for s in 1..32u32 {
        if 2 <= s {
            words.push(0x9000_0000 | (s << 5) | (s - 2))?;
        }
        words.push(0x9000_0000 | (s << 5) | (s - 1))?;
    }
    Ok(())
}

/// Puts two roles of each schema, in two of the quarters.
fn put_roles(words: &mut Vec<u32>, depths: u32) -> Result<(), AllocError> {
    for s in 0..32u32 {
        let (extent, _) = types_of(s, depths);
        let place = extent.wrapping_mul(4).wrapping_add(s % 2);
        words.push(0xA000_0000 | (s << 6) | place)?;
        words.push(0xA000_0000 | (s << 6) | place.wrapping_add(2))?;
    }
    Ok(())
}

/// Puts 256 permissions of schemas and 256 of roles: even operations, and every fourth from 1 on, on the objects below 32.
fn put_permissions(words: &mut Vec<u32>) -> Result<(), AllocError> {
    for s in 0..32u32 {
        for i in 0..8u32 {
            words.push(0xB000_0000 | (s << 12) | ((2 * i) << 8) | ((s * 5 + i) % 32))?;
        }
    }
    for r in 0..64u32 {
        for i in 0..4u32 {
            words.push(0xC000_0000 | (r << 12) | ((4 * i + 1) << 8) | ((r * 3 + i) % 32))?;
        }
    }
    Ok(())
}

/// Puts four roles for each of 128 badges, in all quarters.
fn put_assignments(words: &mut Vec<u32>) -> Result<(), AllocError> {
    for b in 0..128u32 {
        for i in 0..4u32 {
            words.push(0xD000_0000 | (b << 6) | (b % 13 + 17 * i))?;
        }
    }
    Ok(())
}

/// The words of the policy over a hall of so many places.
pub fn policy_words(heap: Global, places: u32) -> Result<Vec<u32>, AllocError> {
    let mut words = Vec::new(heap);
    words.push(0x7000_0080u32)?;
    put_schemas(&mut words, places / 4)?;
    put_roles(&mut words, places / 4)?;
    put_permissions(&mut words)?;
    put_assignments(&mut words)?;
    Ok(words)
}
