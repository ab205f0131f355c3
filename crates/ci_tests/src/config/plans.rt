//! What is said of a CI file before a pipeline is made of it: a plan with a job of each kind, and a circle.

use ci_machine::records::{RefKind, Source};
use ci_machine::request::NewPipeline;
use ci_machine::text::Text;
use ci_plan::{Outcome, exit_status, outcome_of, plan_word};
use ci_values::items::Items;
use std::alloc::{AllocError, Global};
use std::test::Fail;

/// A pipeline of the branch `main` that the API asks for.
fn asked(alloc: Global) -> Result<NewPipeline, AllocError> {
    Ok(NewPipeline {
        project: 1,
        token: Text::copy_of(alloc, "")?,
        git_ref: Text::copy_of(alloc, "main")?,
        kind: RefKind::Branch,
        source: Source::Api,
        variables: Items::new(Vec::new(alloc)),
    })
}

const FILE: &str = "build:
  stage: build
  script: make
unit:
  script: make test
  rules:
  - if: $NIGHTLY
    when: never
  - when: always
ship:
  stage: deploy
  script: make ship
  when: manual
  needs: [unit]
  rules:
  - if: $CI_COMMIT_BRANCH == $CI_DEFAULT_BRANCH
  - if: $CI_COMMIT_REF_SLUG == \"main\" && $DEPLOY == \"yes\"
";

const PLAN: &str = "STAGE        WHEN       RULE JOB                      WAITS FOR
build        on_success    - build                    -
test         always        2 unit                     build
jobs: 2
left out: ship: none of its rules holds
note: rule 1 of ship compares with CI_DEFAULT_BRANCH, which nothing defines: set it as a variable of the project or of each request, and give it here as --variable CI_DEFAULT_BRANCH=VALUE
note: rule 2 of ship compares with CI_COMMIT_REF_SLUG, which nothing defines: set it as a variable of the project or of each request, and give it here as --variable CI_COMMIT_REF_SLUG=VALUE
";

#[test]
fn a_plan_is_told(rt: HostRuntime) -> Result<(), Fail> {
    let alloc = rt.alloc();
    let asked = asked(alloc)?;
    let mut said: Vec<u8> = Vec::new(alloc);
    let printed = plan_word(&rt, alloc, "-", &asked, FILE.as_bytes(), &mut said);
    assert!(rt; exit_status(&printed) == 0);
    assert!(rt; said.as_slice() == PLAN.as_bytes());
    Ok(())
}

#[test]
fn circles_are_found(rt: HostRuntime) -> Result<(), Fail> {
    let alloc = rt.alloc();
    let asked = asked(alloc)?;
    let text = "a:\n  script: x\n  needs: [b]\nb:\n  script: x\n  needs: [a]\n";
    let outcome = outcome_of(alloc, text.as_bytes(), &asked);
    assert!(rt; outcome.status() == 1);
    assert!(rt; matches!(&outcome, Outcome::Planned(_, _)));
    Ok(())
}
