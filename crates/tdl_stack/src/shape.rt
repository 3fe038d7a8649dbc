use tdl_base::PortKey;

/// What a code is made for: how many cells and sensors it may name, which outputs it may read, and
/// whether it is an expression or a body.
#[derive(Clone, Copy, Debug)]
pub struct Shape<'a> {
    pub cells: usize,
    pub sensors: usize,
    pub keys: &'a [PortKey],
    pub expression: bool,
}
