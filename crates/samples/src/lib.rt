// Blocks of 512 bytes, made and sealed.
#![tactic(auto)]

ghost use Rattle.std.specs.Prelude.{◌≡◌, ◌+◌, ◌%◌, ◌≤◌, min, length, slice_set};
ghost use Rattle.std.proofs.lemmas.List.Edits.{sets};
ghost use Rattle.block.specs.Bytes.{checksum};
ghost use Rattle.block.specs.Written.{number_bytes};
ghost use Rattle.samples.specs.Samples.{rising_labels, front, block_of_shape};

// What a block is made of: its first four bytes, then nine labels at most with rising keys and value 1, then one byte put
// anywhere before byte 510, and by how much the stored checksum is to be above the computed one.
// Kept: a byte for the kind, and not one of three: a block that is wrong on purpose may begin with any.
#[derive(Clone, Copy)]
pub struct Shape {
    pub kind: u8,
    pub one: u8,
    pub two: u8,
    pub three: u8,
    pub labels: u8,
    pub key: u8,
    pub at: usize,
    pub byte: u8,
    pub above: u8,
}

// Settings with this user key and this system key, of value 9.
pub fn settings(user: u8, system: u8) -> Shape
    ensures { result ≡ record { kind = 83; one = user; two = system; three = 0; labels = 0; key = 0; at = 5; byte = 9; above = 0 } }
{
    Shape {
        kind: b'S',
        one: user,
        two: system,
        three: 0,
        labels: 0,
        key: 0,
        at: 5,
        byte: 9,
        above: 0,
    }
}

// A container with so many labels, the first with this key.
// Kept: a container says its labels alone, a policy a direction and two parts, and so each has a function of its own.
pub fn container(labels: u8, key: u8) -> Shape
    ensures { result ≡ record { kind = 67; one = labels; two = 0; three = 0; labels = labels; key = key; at = 0; byte = 67; above = 0 } }
{
    Shape {
        kind: b'C',
        one: labels,
        two: 0,
        three: 0,
        labels,
        key,
        at: 0,
        byte: b'C',
        above: 0,
    }
}

// A policy of this direction with so many select and allow labels, the first of all with this key.
// Kept: a direction that no policy has is tried too, and so the parameter is a byte.
pub fn policy(direction: u8, select: u8, allow: u8, key: u8) -> Shape
    ensures { result ≡ record { kind = 80; one = direction; two = select; three = allow; labels = (select + allow) % 256; key = key; at = 0; byte = 80; above = 0 } }
{
    Shape {
        kind: b'P',
        one: direction,
        two: select,
        three: allow,
        labels: select.wrapping_add(allow),
        key,
        at: 0,
        byte: b'P',
        above: 0,
    }
}

// The shape with this byte put there, in the place of the byte that it says.
pub fn with_byte(shape: Shape, at: usize, byte: u8) -> Shape
    ensures { result ≡ record shape { at = at; byte = byte } }
{
    Shape { at, byte, ..shape }
}

// The shape with a wrong checksum.
pub fn spoiled(shape: Shape) -> Shape
    ensures { result ≡ record shape { above = 1 } }
{
    Shape { above: 1, ..shape }
}

// Puts labels from byte 4 on, nine at most.
fn put_rising_labels(block: &mut [u8], labels: u8, key: u8)
    requires { 40 ≤ length block.old }
    ensures { block.new ≡ sets block.old 4 (rising_labels key (min labels 9)) }
{
    for k in 0..labels.min(9) {
        let at = 4 + 4 * usize::from(k);
        block[at..at + 4].copy_from_slice(&[0, key.wrapping_add(k), 0, 1]);
    }
}

// Puts the front and the one byte of a shape.
fn put_body(body: &mut [u8], shape: Shape)
    requires { length body.old ≡ 510 }
    ensures { body.new ≡ slice_set (sets body.old 0 (front shape)) shape.at shape.byte }
{
    body[..4].copy_from_slice(&[shape.kind, shape.one, shape.two, shape.three]);
    put_rising_labels(body, shape.labels, shape.key);
    if shape.at < 510 {
        body[shape.at] = shape.byte;
    }
}

// Puts the checksum plus `above` into bytes 510 and 511.
fn put_checksum(block: &mut [u8; 512], above: u8)
    ensures { block.new ≡ sets block.old 510 (number_bytes ((checksum block.old + above) % 65521)) }
{
    let sum = (block_bytes::checksum(block) + u64::from(above)) % 65521;
    // Kept: a test of the sum, as `try_from` makes, would never fail here.
    block[510..].copy_from_slice(&(sum as u16).to_be_bytes());
}

// The block of a shape, with its checksum.
pub fn sealed(shape: Shape) -> [u8; 512]
    ensures { (result ≡ block_of_shape shape) × (512 ≡ length result) }
{
    let mut block = [0u8; 512];
    put_body(&mut block[..510], shape);
    put_checksum(&mut block, shape.above);
    block
}
