// What a call answers, with a refusal by its number and place, by which a table shows it on part of a line.
use refusal::Refusal;

pub(crate) fn reported<T, F: Into<Refusal>>(answer: Result<T, F>) -> Result<T, (u16, usize)> {
    answer.map_err(|fault| {
        let Refusal { number, place } = fault.into();
        (number, place)
    })
}
