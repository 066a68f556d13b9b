use ms_session::{effect_laws, limit_laws, room_laws, session_laws, solution_law, validity_laws};
use std::test::Fail;

#[test]
fn laws(_rt: HostRuntime) -> Result<(), Fail> {
    validity_laws();
    limit_laws();
    solution_law();
    effect_laws();
    session_laws();
    room_laws();
    Ok(())
}
