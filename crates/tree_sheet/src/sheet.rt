// The tree sheet.
use cells::Kind;
use history::State;

// A tree sheet: the calls work over four slices that the caller lends, since the device has no memory but what it is lent.
#[derive(Drop)]
pub struct Sheet<'a, K: Kind> {
    pub(crate) noisy: &'a mut [K],
    pub(crate) marks: &'a mut [u8],
    pub(crate) numerators: &'a mut [K],
    pub(crate) work: &'a mut [K],
    pub(crate) state: State,
}
