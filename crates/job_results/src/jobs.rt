//! Jobs, their kinds and their values.
ghost use Rattle.std.specs.Prelude.{◌≡◌};
ghost use Rattle.job_results.specs.Jobs.{kind_of};
ghost use Rattle.job_results.specs.Jobs as jobs;

/// Something to be computed.
#[derive(Debug, Drop, PartialEq, Eq)]
pub enum Job {
    /// The sum of two numbers.
    Add(u64, u64),
    /// The product of two numbers.
    Mul(u64, u64),
    /// The whole quotient of the first number by the second.
    Div(u64, u64),
    /// The number of bytes of a text.
    Len(String),
}

/// What kind of job it is.
#[derive(Clone, Copy, Debug, PartialEq, Eq, Hash)]
pub enum JobKind {
    Add,
    Mul,
    Div,
    Len,
}

/// What a job gives.
#[derive(Clone, Copy, Debug, PartialEq, Eq)]
pub enum Value {
    Number(u128),
    /// The divisor is 0.
    ByZero,
}

impl Job {
    /// The job's kind. Takes no memory.
    pub fn kind(&self) -> JobKind
        ensures { result ≡ kind_of self.now }
    {
        match self {
            Job::Add(_, _) => JobKind::Add,
            Job::Mul(_, _) => JobKind::Mul,
            Job::Div(_, _) => JobKind::Div,
            Job::Len(_) => JobKind::Len,
        }
    }
}

/// The value of a job. A sum and a product are exact, and a quotient is the whole one. Takes no memory.
pub fn value_of(job: &Job) -> Value
    //= jobs/value: A job's value is exact: the sum, the product, the whole quotient or none by zero, the number of
    //=   bytes of a text.
    ensures { result ≡ jobs.value_of job.now }
{
    match job {
        Job::Add(a, b) => Value::Number(u128::from(*a) + u128::from(*b)),
        Job::Mul(a, b) => Value::Number(u128::from(*a) * u128::from(*b)),
        Job::Div(_, 0) => Value::ByZero,
        Job::Div(a, b) => Value::Number(u128::from(*a / *b)),
        Job::Len(text) => Value::Number(text.len() as u128),
    }
}
