/// The numbers of a variable, from the lowest to the highest; none where the lowest is greater.
#[derive(Clone, Copy)]
pub struct Domain {
    pub lowest: i64,
    pub highest: i64,
}
