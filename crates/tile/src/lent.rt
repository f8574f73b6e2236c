// The caller's tables as the calls work on them.

/// The five tables, slices of any length, lent to the calls. Each call checks those that it uses against the plan, since the
/// caller gives both at each call. What they hold is the word `contents`. A call that may write also ensures that they are
/// still the caller's (`IsStillLent`): a caller knows what a slice of its own holds afterwards only while its field here is
/// still the same loan.
/// Behind a `&mut Tables` a field that is lent for reading first gets a name of its own, as `let queue = &mut *tables.queue;`:
/// of a field that is passed as a `&` there, no cell is known afterwards.
#[derive(Drop)]
pub struct Tables<'a, K> {
    pub picture: &'a mut [K],
    pub marks: &'a mut [u8],
    pub sums: &'a mut [K],
    pub counts: &'a mut [u8],
    pub queue: &'a mut [u16],
}
