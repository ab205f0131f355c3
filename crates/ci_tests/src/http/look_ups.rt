use ci_http_messages::routing::lookup::Lookup;
use ci_http_messages::routing::operation::Operation;
use ci_http_messages::routing::paths::Paths;
use ci_machine::reply::Method;
use ci_machine::request::Subject;
use std::process::Abort;
use std::test::Fail;

fn has_runner_routes(rt: &impl Abort, paths: &Paths) {
    let asked = paths.look_up(b"POST", "/api/v4/jobs/request");
    assert!(rt; matches!(asked, Lookup::Found(Operation::AskJob)));
    let asked = paths.look_up(b"PUT", "/api/v4/jobs/7");
    assert!(rt; matches!(asked, Lookup::Found(Operation::UpdateJob(7))));
    let asked = paths.look_up(b"PATCH", "/api/v4/jobs/9007199254740991/trace");
    assert!(rt;
        matches!(
            asked,
            Lookup::Found(Operation::AppendTrace(9_007_199_254_740_991))
        )
    );
}

fn has_project_routes(rt: &impl Abort, paths: &Paths) {
    let asked = paths.look_up(b"PUT", "/api/v4/projects/1/ci_file");
    assert!(rt; matches!(asked, Lookup::Found(Operation::SetFile(1))));
    let asked = paths.look_up(b"PUT", "/api/v4/projects/1/variables/%41-b");
    assert!(rt; matches!(asked, Lookup::Found(Operation::SetVariable(1, "%41-b"))));
    let asked = paths.look_up(b"DELETE", "/api/v4/projects/1/variables/A");
    assert!(rt; matches!(asked, Lookup::Found(Operation::DeleteVariable(1, "A"))));
    let asked = paths.look_up(b"PUT", "/api/v4/projects/1/resource_groups/prod");
    assert!(rt; matches!(asked, Lookup::Found(Operation::SetMode(1, "prod"))));
    let asked = paths.look_up(b"GET", "/api/v4/projects/1/resource_groups/%41-b");
    assert!(rt; matches!(asked, Lookup::Found(Operation::ShowMode(1, "%41-b"))));
    let asked = paths.look_up(b"POST", "/api/v4/projects/1/pipeline");
    assert!(rt; matches!(asked, Lookup::Found(Operation::CreatePipeline(1))));
    let asked = paths.look_up(b"GET", "/api/v4/projects/1/pipelines/2");
    assert!(rt; matches!(asked, Lookup::Found(Operation::ShowPipeline(1, 2))));
    let asked = paths.look_up(b"POST", "/api/v4/projects/1/pipelines/2/cancel");
    assert!(rt; matches!(asked, Lookup::Found(Operation::CancelPipeline(1, 2))));
}

fn has_job_routes(rt: &impl Abort, paths: &Paths) {
    let asked = paths.look_up(b"GET", "/api/v4/projects/1/jobs/2");
    assert!(rt; matches!(asked, Lookup::Found(Operation::ShowJob(1, 2))));
    let asked = paths.look_up(b"GET", "/api/v4/projects/1/jobs/2/trace");
    assert!(rt; matches!(asked, Lookup::Found(Operation::ShowTrace(1, 2))));
    let asked = paths.look_up(b"POST", "/api/v4/projects/1/jobs/2/play");
    assert!(rt; matches!(asked, Lookup::Found(Operation::Play(1, 2))));
    let asked = paths.look_up(b"POST", "/api/v4/projects/1/jobs/2/cancel");
    assert!(rt; matches!(asked, Lookup::Found(Operation::CancelJob(1, 2))));
    let asked = paths.look_up(b"POST", "/api/v4/projects/1/jobs/2/retry");
    assert!(rt; matches!(asked, Lookup::Found(Operation::RetryJob(1, 2))));
}

fn has_reading_routes(rt: &impl Abort, paths: &Paths) {
    let asked = paths.look_up(b"GET", "/api/v4/projects/1");
    assert!(rt; matches!(asked, Lookup::Found(Operation::Read(1, Subject::Project))));
    let asked = paths.look_up(b"GET", "/api/v4/projects/1/pipelines");
    assert!(rt; matches!(asked, Lookup::Found(Operation::Read(1, Subject::Pipelines))));
    let asked = paths.look_up(b"GET", "/api/v4/projects/1/pipelines/2/jobs");
    assert!(rt; matches!(asked, Lookup::Found(Operation::Read(1, Subject::Jobs(2)))));
    let asked = paths.look_up(b"GET", "/api/v4/projects/1/jobs/2/attempts");
    assert!(rt;
        matches!(
            asked,
            Lookup::Found(Operation::Read(1, Subject::Attempts(2)))
        )
    );
    let asked = paths.look_up(b"GET", "/api/v4/projects/1/jobs/2/attempts/3/trace");
    assert!(rt;
        matches!(
            asked,
            Lookup::Found(Operation::Read(1, Subject::Trace(2, 3)))
        )
    );
    let asked = paths.look_up(b"GET", "/api/v4/projects/1/resource_groups");
    assert!(rt;
        matches!(
            asked,
            Lookup::Found(Operation::Read(1, Subject::ResourceGroups))
        )
    );
    let asked = paths.look_up(b"GET", "/-/health");
    assert!(rt; matches!(asked, Lookup::Found(Operation::Health)));
}

fn lists_methods(rt: &impl Abort, paths: &Paths) {
    let asked = paths.look_up(b"GET", "/api/v4/projects/1/variables/A");
    assert!(rt;
        matches!(
            asked,
            Lookup::OtherMethods(Method::Delete, Some(Method::Put))
        )
    );
    let asked = paths.look_up(b"DELETE", "/api/v4/projects/1/resource_groups/A");
    assert!(rt; matches!(asked, Lookup::OtherMethods(Method::Get, Some(Method::Put))));
    let asked = paths.look_up(b"POST", "/api/v4/projects/1/pipelines");
    assert!(rt; matches!(asked, Lookup::OtherMethods(Method::Get, None)));
    let asked = paths.look_up(b"HEAD", "/-/health");
    assert!(rt; matches!(asked, Lookup::OtherMethods(Method::Get, None)));
    let asked = paths.look_up(b"post", "/api/v4/jobs/request");
    assert!(rt; matches!(asked, Lookup::OtherMethods(Method::Post, None)));
}

fn has_no_route(rt: &impl Abort, paths: &Paths, path: &str) {
    let asked = paths.look_up(b"GET", path);
    assert!(rt; matches!(asked, Lookup::NoRoute));
}

#[test]
fn each_route_asks_for_its_operation(rt: HostRuntime) -> Result<(), Fail> {
    let paths = Paths::new(rt.alloc())?;
    has_runner_routes(&rt, &paths);
    has_project_routes(&rt, &paths);
    has_job_routes(&rt, &paths);
    has_reading_routes(&rt, &paths);
    Ok(())
}

#[test]
fn another_method_gets_those_of_the_path(rt: HostRuntime) -> Result<(), Fail> {
    let paths = Paths::new(rt.alloc())?;
    lists_methods(&rt, &paths);
    Ok(())
}

#[test]
fn other_paths_have_no_route(rt: HostRuntime) -> Result<(), Fail> {
    let paths = Paths::new(rt.alloc())?;
    has_no_route(&rt, &paths, "");
    has_no_route(&rt, &paths, "/");
    has_no_route(&rt, &paths, "api/v4/jobs/1");
    has_no_route(&rt, &paths, "/api/v4/jobs");
    has_no_route(&rt, &paths, "/api/v4/jobs/");
    has_no_route(&rt, &paths, "/api/v4/jobs/0");
    has_no_route(&rt, &paths, "/api/v4/jobs/01");
    has_no_route(&rt, &paths, "/api/v4/jobs/+1");
    has_no_route(&rt, &paths, "/api/v4/jobs/requests");
    has_no_route(&rt, &paths, "/api/v4/jobs/9007199254740992");
    has_no_route(&rt, &paths, "/api/v4/jobs/18446744073709551617");
    has_no_route(&rt, &paths, "/api/v4/jobs/1/");
    has_no_route(&rt, &paths, "/api/v4/jobs/request/trace");
    has_no_route(&rt, &paths, "/api/v4/projects/1/variables/");
    has_no_route(&rt, &paths, "/api/v4/projects/1/variables/A/B");
    has_no_route(&rt, &paths, "/api/v4/projects");
    has_no_route(&rt, &paths, "/api/v4/projects/");
    has_no_route(&rt, &paths, "/api/v4/projects/0");
    has_no_route(&rt, &paths, "/api/v4/projects/1/jobs");
    has_no_route(&rt, &paths, "/api/v4/projects/1/jobs/2/attempts/");
    has_no_route(&rt, &paths, "/api/v4/projects/1/jobs/2/attempts/3");
    has_no_route(&rt, &paths, "/api/v4/projects/1/jobs/2/attempts/0/trace");
    has_no_route(&rt, &paths, "/api/v4/projects/1/pipelines/2/trace");
    has_no_route(&rt, &paths, "/-/health/");
    has_no_route(&rt, &paths, "/health");
    has_no_route(&rt, &paths, "/api/v4/projects/1/resource_groups/");
    has_no_route(&rt, &paths, "/api/v4/projects/1/resource_groups/A/B");
    has_no_route(&rt, &paths, "/api/v4/projects/0/resource_groups/A");
    has_no_route(&rt, &paths, "/api/v4/projects/01/pipeline");
    has_no_route(&rt, &paths, "//api/v4/jobs/1");
    Ok(())
}
