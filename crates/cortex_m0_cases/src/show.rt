// A line of output: a label, a colon, numbers.
use any_chip::Reply;
use std::io::Result;

// The refusal and the value.
pub fn told(rt: &impl Print, label: &str, r: Reply) -> Result<()> {
    println!(rt; "{label}: {} {}", r.refusal, r.value)
}

// What an entry answers: the refusal, the exception, its vector address and the link value.
pub fn entered(rt: &impl Print, label: &str, r: Reply) -> Result<()> {
    println!(rt;
        "{label}: {} {} {} {}",
        r.refusal, r.value, r.vector, r.link
    )
}
