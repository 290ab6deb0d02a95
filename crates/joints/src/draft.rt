// A plan as it stands in the words of a sheet.
#[derive(Drop)]
pub struct Draft<'a> {
    pub(crate) bodies: u32,
    pub(crate) joints: &'a [u64],
}
