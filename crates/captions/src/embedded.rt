// A built-in model: its tables are built at the start and handed on. A model from elsewhere is one more module like this one, which ends in
// `session::run`.
use crate::job::Job;
use crate::models::build;
use crate::session;

pub(crate) fn run(job: Job<'_>) {
    let tables = build(job.name);
    let orders = tables.orders();
    session::run(&tables.model(&orders), job);
}
